//! Fields as text.

ghost use Rattle.std.specs.Prelude.{◌≡◌, option_map};
ghost use Rattle.csv_records.specs.Texts.{text_of};

/// A field as text, None where it isn't UTF-8.
pub fn text_of(field: &[u8]) -> Option<&str>
    ensures { option_map (λ text. text.now) result ≡ text_of field.now }
{
    str::from_utf8(field).ok()
}

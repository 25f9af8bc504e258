//! Numbers that a person writes.
ghost use Rattle.std.specs.Prelude.{◌≡◌};
ghost use Rattle.std.specs.Char.{is_ascii_digit};
ghost use Rattle.std.specs.List.{list_all};
ghost use Rattle.rt_words.specs.Numbers.{number_of};

/// The number that a word writes: 1 to 20 digits, which may begin with zeros, whose value fits 64 bits.
pub fn number_of(text: &str) -> Option<u64>
    ensures { result ≡ number_of text.now }
{
    if text.len() > 20 || !are_digits(text) {
        return None;
    }
    text.parse().ok()
}

fn are_digits(text: &str) -> bool
    ensures { result ≡ list_all is_ascii_digit text.now }
{
    text.bytes().all(|byte| byte.is_ascii_digit())
}

//! Words that may be paths.
ghost use Rattle.std.specs.Prelude.{◌≡◌};
ghost use Rattle.rt_words.specs.Paths.{is_path};

/// Whether a word may be the path of a file: it isn't empty and doesn't begin with a dash.
pub fn is_path(text: &str) -> bool
    ensures { result ≡ is_path text.now }
{
    !text.is_empty() && text.as_bytes()[0] != b'-'
}

//! Feeds of a list.
ghost use Rattle.std.specs.Prelude.{◌≡◌};
ghost use Rattle.feed_list.specs.Values.{feed_of};

use rt_words::number_of;

/// How many feeds there may be.
const FEEDS: u64 = 16;

/// The feed whose number a text writes.
pub fn feed_of(text: &str) -> Option<u8>
    ensures { result ≡ feed_of text.now }
{
    let number = number_of(text)?;
    if number < FEEDS {
        Some(number as u8)
    } else {
        None
    }
}

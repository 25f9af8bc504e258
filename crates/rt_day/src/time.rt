//! Times of a service day.

ghost use Rattle.std.specs.Prelude.{◌≡◌, ◌<◌, ◌≤◌, length, IfSome};
ghost use Rattle.std.specs.List.{position_or_len};
ghost use Rattle.rt_day.specs.Time.{is_colon, sixtieth_of, time_of};

use crate::digits::number_of;

/// Two digits up to 59.
fn sixtieth_of(text: &[u8]) -> Option<u32>
    ensures value { result ≡ sixtieth_of text.now }
    ensures below { IfSome result (λ n. n ≤ 59) }
{
    let number = number_of(text, 2, 2)?;
    if number <= 59 {
        Some(number as u32)
    } else {
        None
    }
}

/// The place of the first colon, or else the length.
fn colon_in(text: &[u8]) -> usize
    ensures place { result ≡ position_or_len is_colon text.now }
    ensures within { result ≤ length text.now }
{
    let mut place = 0;
    while place < text.len() && text[place] != b':' {
        place += 1;
    }
    place
}

/// Reads a time as H:MM:SS, HH:MM:SS or HHH:MM:SS, in seconds from the service day's origin.
///
/// It may pass 24 hours. None exactly where the text isn't a time.
pub fn parse_time(text: &str) -> Option<u32>
    ensures value { result ≡ time_of text.now }
    ensures below { IfSome result (λ seconds. seconds < 3_600_000) }
{
    let text = text.as_bytes();
    let first = colon_in(text);
    let rest = text.get(first + 1..)?;
    let second = colon_in(rest);
    let seconds = sixtieth_of(rest.get(second + 1..)?)?;
    let minutes = sixtieth_of(&rest[..second])?;
    let hours = number_of(&text[..first], 1, 3)? as u32;
    Some(hours * 3600 + minutes * 60 + seconds)
}

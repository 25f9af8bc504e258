//! Numbers within bounds.
ghost use Rattle.std.specs.Prelude.{◌≡◌, ◌^◌};
ghost use Rattle.rt_words.specs.Numbers.{below};
ghost use Rattle.finding_names.specs.Numbers.{u8_named, u32_named};

use rt_words::number_of;

/// The number of at most 8 bits that a number is.
pub fn u8_of(number: u64) -> Option<u8>
    ensures { result ≡ below (2 ^ 8) number }
{
    if number <= 255 {
        Some(number as u8)
    } else {
        None
    }
}

/// The number of at most 32 bits that a number is.
pub fn u32_of(number: u64) -> Option<u32>
    ensures { result ≡ below (2 ^ 32) number }
{
    if number <= 4_294_967_295 {
        Some(number as u32)
    } else {
        None
    }
}

/// The number of at most 32 bits that a text of digits writes.
pub(crate) fn u32_named(text: &str) -> Option<u32>
    ensures { result ≡ u32_named text.now }
{
    u32_of(number_of(text)?)
}

/// The number of at most 8 bits that a text of digits writes.
pub(crate) fn u8_named(text: &str) -> Option<u8>
    ensures { result ≡ u8_named text.now }
{
    u8_of(number_of(text)?)
}

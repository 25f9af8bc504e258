//! The values of fields in words.

use cases::{number, word};
use rt_wire::RawValue;

/// The number that the word at a place spells, up to the greatest of 32 bits.
pub fn small_number(words: &[String], place: usize) -> u32 {
    u32::try_from(number(words, place)).unwrap_or(u32::MAX)
}

/// The value that the words from the third on say: a kind, with a number behind it or with the bytes that are given.
pub fn value_in<'a>(words: &[String], given: &'a [u8]) -> Option<RawValue<'a>> {
    match word(words, 2) {
        "varint" => Some(RawValue::Varint(number(words, 3))),
        "fixed64" => Some(RawValue::Fixed64(number(words, 3))),
        "fixed32" => Some(RawValue::Fixed32(small_number(words, 3))),
        "len" => Some(RawValue::Len(given)),
        "group" => Some(RawValue::Group(given)),
        _ => None,
    }
}

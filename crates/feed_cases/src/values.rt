//! Asks of feed_values.

use crate::slots::slot_named;
use crate::wire_values::{small_number, value_in};
use cases::{say, say_whether, word};
use feed_values::{
    FeedHeader, FeedMessage, Items, Path, Raw, Text, Unknown, UnknownValue, well_formed,
};
use rt_wire::RawValue;
use std::alloc::{AllocError, Global};

fn blank_header(alloc: Global) -> FeedHeader {
    FeedHeader {
        gtfs_realtime_version: Text::new(alloc),
        incrementality: None,
        timestamp: None,
        feed_version: None,
        unknown: Items::new(alloc),
    }
}

// Whether a snapshot of this header alone is well formed.
fn say_formed(alloc: Global, header: FeedHeader, answer: &mut Vec<u8>) -> Result<(), AllocError> {
    let message = FeedMessage {
        header,
        entity: Items::new(alloc),
        unknown: Items::new(alloc),
    };
    say_whether(answer, well_formed(&message))
}

fn unknown(alloc: Global, number: u32, value: RawValue<'_>) -> Result<Unknown, AllocError> {
    let value = match value {
        RawValue::Varint(n) => UnknownValue::Varint(n),
        RawValue::Fixed64(n) => UnknownValue::Fixed64(n),
        RawValue::Len(payload) => UnknownValue::Len(Raw::of(alloc, payload)?),
        RawValue::Group(group) => UnknownValue::Group(Raw::of(alloc, group)?),
        RawValue::Fixed32(n) => UnknownValue::Fixed32(n),
    };
    Ok(Unknown { number, value })
}

fn with_unknown(alloc: Global, number: u32, value: RawValue<'_>) -> Result<FeedHeader, AllocError> {
    let mut header = blank_header(alloc);
    header.unknown.push(unknown(alloc, number, value)?)?;
    Ok(header)
}

fn say_unknown_formed(
    alloc: Global,
    words: &[String],
    given: &[u8],
    answer: &mut Vec<u8>,
) -> Result<(), AllocError> {
    match value_in(words, given) {
        Some(value) => {
            let header = with_unknown(alloc, small_number(words, 1), value)?;
            say_formed(alloc, header, answer)
        }
        None => say(answer, "no such value"),
    }
}

fn say_header_formed(
    alloc: Global,
    words: &[String],
    answer: &mut Vec<u8>,
) -> Result<(), AllocError> {
    let mut header = blank_header(alloc);
    header.incrementality = Some(small_number(words, 1));
    say_formed(alloc, header, answer)
}

// A copy of a text, and how another text stands to it.
fn say_copied_text(
    alloc: Global,
    words: &[String],
    answer: &mut Vec<u8>,
) -> Result<(), AllocError> {
    let copy = Text::of(alloc, word(words, 1))?.clone(alloc)?;
    let other = Text::of(alloc, word(words, 2))?;
    say(answer, copy.as_str())?;
    let order = if copy == other {
        "equal to the other"
    } else if copy < other {
        "before the other"
    } else {
        "behind the other"
    };
    say(answer, order)
}

// A copy of the list of the numbers behind the ask, each in a line.
fn say_copied_list(
    alloc: Global,
    words: &[String],
    answer: &mut Vec<u8>,
) -> Result<(), AllocError> {
    let mut numbers = Vec::new(alloc);
    for place in 1..words.len() {
        numbers.push(small_number(words, place))?;
    }
    let copy = Items::from_vec(numbers).clone(alloc)?;
    for number in copy.as_slice() {
        say(answer, format!(in alloc; "{number}")?.as_str())?;
    }
    Ok(())
}

// The path of a slot at an index, and the text of a slot that has none.
fn say_path(alloc: Global, words: &[String], answer: &mut Vec<u8>) -> Result<(), AllocError> {
    let Some(slot) = slot_named(alloc, word(words, 1))? else {
        return say(answer, "no such slot");
    };
    let index = small_number(words, 2);
    say(answer, Path { slot, index }.text(alloc)?.as_str())?;
    if slot.has_index() {
        return Ok(());
    }
    say(answer, slot.text())
}

/// Answers `formed NUMBER KIND VALUE`, `formed-header INCREMENTALITY`, `copy-text TEXT OTHER`, `copy-list NUMBER ..` and
/// `path SLOT INDEX`.
pub fn answer(
    alloc: Global,
    words: &[String],
    given: &[u8],
    answer: &mut Vec<u8>,
) -> Result<bool, AllocError> {
    match word(words, 0) {
        "formed" => say_unknown_formed(alloc, words, given, answer)?,
        "formed-header" => say_header_formed(alloc, words, answer)?,
        "copy-text" => say_copied_text(alloc, words, answer)?,
        "copy-list" => say_copied_list(alloc, words, answer)?,
        "path" => say_path(alloc, words, answer)?,
        _ => return Ok(false),
    }
    Ok(true)
}

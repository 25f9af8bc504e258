//! Asks of feed_codec: an entity, and the payloads of a header, by themselves.
ghost use Rattle.std.specs.Prelude.{◌≡◌};

use crate::cells::{say_entity_cells, say_header_cells};
use crate::faults::say_checked;
use cases::{say, size, word};
use feed_codec::{check_entity, check_header, check_header_part, decode_entity, decode_header};
use feed_values::{Entity, FeedHeader};
use rt_outside::Steps;
use std::alloc::{AllocError, Global};
use std::marker::Brand;
use std::sync::ledger::{Blank, Ledger};

// The entity that a payload means, where it passes.
fn entity_in<L: Ledger>(
    alloc: Global,
    payload: &[u8],
    steps: &mut Steps<L>,
) -> Result<Option<Entity>, AllocError> {
    match check_entity(payload, 0) {
        Ok(()) => Ok(Some(decode_entity(alloc, payload, steps)?)),
        Err(_) => Ok(None),
    }
}

// The same with a counter of steps of its own.
fn entity_of<L: Ledger>(
    alloc: Global,
    payload: &[u8],
    blank: Blank,
) -> Result<Option<Entity>, AllocError>
    requires name { blank.name ≡ L.name }
    requires parts { blank.parts ≡ L.parts }
    requires one { blank.parts ≡ 1 }
{
    entity_in(alloc, payload, &mut Steps::<L>::new(blank))
}

fn say_entity(alloc: Global, payload: &[u8], answer: &mut Vec<u8>) -> Result<(), AllocError> {
    match entity_of::<Brand>(alloc, payload, Blank::new(1))? {
        Some(entity) => say_entity_cells(alloc, &entity, answer),
        None => say_checked(alloc, check_entity(payload, 0), answer),
    }
}

// The header that its payload means, where it passes.
fn header_of(alloc: Global, payload: &[u8]) -> Result<Option<FeedHeader>, AllocError> {
    match check_header_part(payload, 0) {
        Ok(()) => Ok(Some(decode_header(alloc, payload)?)),
        Err(_) => Ok(None),
    }
}

fn say_header(alloc: Global, payload: &[u8], answer: &mut Vec<u8>) -> Result<(), AllocError> {
    match header_of(alloc, payload)? {
        Some(header) => say_header_cells(alloc, &header, answer),
        None => say_checked(alloc, check_header_part(payload, 0), answer),
    }
}

// Checks a payload that begins at byte `base` of a snapshot.
fn say_header_part(
    alloc: Global,
    payload: &[u8],
    base: usize,
    answer: &mut Vec<u8>,
) -> Result<(), AllocError> {
    if base.checked_add(payload.len()).is_none() {
        return say(answer, "no such place");
    }
    say_checked(alloc, check_header_part(payload, base), answer)
}

/// Answers `entity`, `header`, `check-header-part BASE` and `check-header END`.
pub fn answer(
    alloc: Global,
    words: &[String],
    given: &[u8],
    answer: &mut Vec<u8>,
) -> Result<bool, AllocError> {
    match word(words, 0) {
        "entity" => say_entity(alloc, given, answer)?,
        "header" => say_header(alloc, given, answer)?,
        "check-header-part" => say_header_part(alloc, given, size(words, 1), answer)?,
        "check-header" => say_checked(alloc, check_header(given, size(words, 1)), answer)?,
        _ => return Ok(false),
    }
    Ok(true)
}

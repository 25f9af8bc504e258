//! Asks of feed_codec: whole snapshots.

use crate::cells::{say_entity_cells, say_header_cells};
use crate::faults::say_checked;
use cases::{say, say_some, size, word};
use feed_codec::{CodecFault, check_snapshot, decode, encode};
use feed_values::{FeedMessage, well_formed};
use std::alloc::{AllocError, Global};

// The canonical bytes of a snapshot that is well formed.
fn put_written(
    alloc: Global,
    message: &FeedMessage,
    answer: &mut Vec<u8>,
) -> Result<(), AllocError> {
    if !well_formed(message) {
        return say(answer, "not well formed");
    }
    answer.extend_from_slice(&encode(alloc, message)?)
}

// The header's cells, and for each entity a line and its cells.
fn say_cells(alloc: Global, message: &FeedMessage, answer: &mut Vec<u8>) -> Result<(), AllocError> {
    say_header_cells(alloc, &message.header, answer)?;
    for entity in message.entity.as_slice() {
        say(answer, "entity")?;
        say_entity_cells(alloc, entity, answer)?;
    }
    Ok(())
}

fn say_message(
    alloc: Global,
    ask: &str,
    message: &FeedMessage,
    answer: &mut Vec<u8>,
) -> Result<(), AllocError> {
    match ask {
        "written" => put_written(alloc, message, answer),
        "copied" => put_written(alloc, &message.clone(alloc)?, answer),
        "cells" => say_cells(alloc, message, answer),
        _ => {
            let count = message.entity.as_slice().len();
            say(answer, format!(in alloc; "entities {count}")?.as_str())
        }
    }
}

fn say_decoded(
    alloc: Global,
    ask: &str,
    bytes: &[u8],
    answer: &mut Vec<u8>,
) -> Result<(), AllocError> {
    match decode(alloc, bytes) {
        Ok(message) => say_message(alloc, ask, &message, answer),
        Err(fault) => say_some(alloc, answer, Some(fault)),
    }
}

// The lengths of the fronts that are accepted, up to the whole.
fn say_accepted_fronts(
    alloc: Global,
    bytes: &[u8],
    answer: &mut Vec<u8>,
) -> Result<(), AllocError> {
    for length in 0..bytes.len() + 1 {
        if check_snapshot(&bytes[..length]).is_ok() {
            say(answer, format!(in alloc; "{length}")?.as_str())?;
        }
    }
    Ok(())
}

/// Answers `check`, `check-front LENGTH`, `accepted-fronts`, `decode`, `written`, `copied`, `cells` and `out-of-memory`.
pub fn answer(
    alloc: Global,
    words: &[String],
    given: &[u8],
    answer: &mut Vec<u8>,
) -> Result<bool, AllocError> {
    let ask = word(words, 0);
    match ask {
        "check" => say_checked(alloc, check_snapshot(given), answer)?,
        "check-front" => {
            let front = &given[..given.len().min(size(words, 1))];
            say_checked(alloc, check_snapshot(front), answer)?;
        }
        "accepted-fronts" => say_accepted_fronts(alloc, given, answer)?,
        "decode" | "written" | "copied" | "cells" => say_decoded(alloc, ask, given, answer)?,
        "out-of-memory" => say_some(alloc, answer, Some(CodecFault::Memory))?,
        _ => return Ok(false),
    }
    Ok(true)
}

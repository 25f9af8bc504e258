//! Asks of feed_stream.

use crate::faults::fault_text;
use cases::{say, say_hex, size, word};
use feed_codec::CodecFault;
use feed_stream::{Kept, Splitter};
use std::alloc::{AllocError, Global};

/// How many zeros are fed at once.
const PIECE: usize = 4_194_304;

fn in_one(alloc: Global, bytes: &[u8]) -> Result<Kept, CodecFault> {
    Splitter::new(alloc).feed(bytes)?.finish()
}

fn in_two(alloc: Global, first: &[u8], second: &[u8]) -> Result<Kept, CodecFault> {
    Splitter::new(alloc).feed(first)?.feed(second)?.finish()
}

fn byte_by_byte(alloc: Global, bytes: &[u8], before: Option<&Kept>) -> Result<Kept, CodecFault> {
    let mut splitter = Splitter::new(alloc);
    for i in 0..bytes.len() {
        splitter = splitter.feed_beside(&bytes[i..i + 1], before)?;
    }
    splitter.finish()
}

// What came of the pieces of some bytes.
fn outcome(
    alloc: Global,
    bytes: &[u8],
    found: Result<Kept, CodecFault>,
) -> Result<String, AllocError> {
    match found {
        Ok(kept) if kept.bytes() == bytes => String::from_str(alloc, "kept as it came"),
        Ok(_) => String::from_str(alloc, "kept otherwise"),
        Err(fault) => fault_text(alloc, fault),
    }
}

// In how many places a cut in two makes no difference; each other one is told.
fn say_places(
    alloc: Global,
    bytes: &[u8],
    whole: &str,
    answer: &mut Vec<u8>,
) -> Result<(), AllocError> {
    let mut same = 0u64;
    for at in 0..bytes.len() + 1 {
        let cut = outcome(alloc, bytes, in_two(alloc, &bytes[..at], &bytes[at..]))?;
        if cut.as_str() == whole {
            same = same.saturating_add(1);
        } else {
            say(answer, format!(in alloc; "cut at {at}: {cut}")?.as_str())?;
        }
    }
    let line = format!(in alloc; "the same cut at {same} places")?;
    say(answer, line.as_str())
}

// What comes of some bytes in one piece, and whether the same comes of them in two pieces, and byte by byte.
fn say_cut(alloc: Global, bytes: &[u8], answer: &mut Vec<u8>) -> Result<(), AllocError> {
    let whole = outcome(alloc, bytes, in_one(alloc, bytes))?;
    say(answer, whole.as_str())?;
    say_places(alloc, bytes, whole.as_str(), answer)?;
    let last = outcome(alloc, bytes, byte_by_byte(alloc, bytes, None))?;
    if last == whole {
        return say(answer, "the same byte by byte");
    }
    say(answer, last.as_str())
}

// The header of a kept snapshot, and where each entity begins and what it is.
fn say_kept(alloc: Global, kept: &Kept, answer: &mut Vec<u8>) -> Result<(), AllocError> {
    say(answer, "header")?;
    say_hex(alloc, answer, kept.header_parts())?;
    for i in 0..kept.len() {
        let base = kept.entity_base(i);
        say(answer, format!(in alloc; "entity at {base}")?.as_str())?;
        say_hex(alloc, answer, kept.entity(i))?;
    }
    Ok(())
}

// The id of each entity of a kept snapshot.
fn say_ids(alloc: Global, bytes: &[u8], answer: &mut Vec<u8>) -> Result<(), AllocError> {
    let Ok(kept) = in_one(alloc, bytes) else {
        return say(answer, "refused");
    };
    for i in 0..kept.len() {
        say(answer, kept.entity_id(i))?;
    }
    Ok(())
}

// What comes of some bytes one by one.
fn say_drip(alloc: Global, bytes: &[u8], answer: &mut Vec<u8>) -> Result<(), AllocError> {
    let told = outcome(alloc, bytes, byte_by_byte(alloc, bytes, None))?;
    say(answer, told.as_str())
}

// What comes of some bytes, and whether the same comes of them one by one beside a snapshot before.
fn say_beside(
    alloc: Global,
    before: &[u8],
    bytes: &[u8],
    answer: &mut Vec<u8>,
) -> Result<(), AllocError> {
    let Ok(before) = in_one(alloc, before) else {
        return say(answer, "refused before");
    };
    let whole = outcome(alloc, bytes, in_one(alloc, bytes))?;
    say(answer, whole.as_str())?;
    let beside = outcome(alloc, bytes, byte_by_byte(alloc, bytes, Some(&before)))?;
    if beside == whole {
        return say(answer, "the same beside it");
    }
    say(answer, beside.as_str())
}

// The bytes up to a place, and those from it on.
fn parted(bytes: &[u8], at: usize) -> (&[u8], &[u8]) {
    let at = at.min(bytes.len());
    (&bytes[..at], &bytes[at..])
}

fn say_parts(alloc: Global, bytes: &[u8], answer: &mut Vec<u8>) -> Result<(), AllocError> {
    match in_one(alloc, bytes) {
        Ok(kept) => say_kept(alloc, &kept, answer),
        Err(fault) => say(answer, fault_text(alloc, fault)?.as_str()),
    }
}

// A front, and zeros behind it up to so many bytes.
fn filled(alloc: Global, front: &[u8], length: usize) -> Result<Splitter, AllocError> {
    let zeros = vec![in alloc; 0; PIECE]?;
    let left = length.saturating_sub(front.len());
    let mut splitter = Splitter::new(alloc).feed(front)?;
    for _ in 0..left / PIECE {
        splitter = splitter.feed(&zeros)?;
    }
    splitter.feed(&zeros[..left % PIECE])
}

// Whether it is full, and how long the snapshot is.
fn say_filled(
    alloc: Global,
    front: &[u8],
    length: usize,
    answer: &mut Vec<u8>,
) -> Result<(), AllocError> {
    let splitter = filled(alloc, front, length)?;
    say(
        answer,
        if splitter.is_full() {
            "full"
        } else {
            "not full"
        },
    )?;
    match splitter.finish() {
        Ok(kept) => {
            let length = kept.bytes().len();
            say(answer, format!(in alloc; "kept {length} bytes")?.as_str())
        }
        Err(fault) => say(answer, fault_text(alloc, fault)?.as_str()),
    }
}

/// Answers `cut`, `drip`, `beside LENGTH`, `parts`, `ids` and `filled LENGTH`. The bytes that `beside` is given begin with a snapshot of that length.
pub fn answer(
    alloc: Global,
    words: &[String],
    given: &[u8],
    answer: &mut Vec<u8>,
) -> Result<bool, AllocError> {
    match word(words, 0) {
        "cut" => say_cut(alloc, given, answer)?,
        "drip" => say_drip(alloc, given, answer)?,
        "beside" => {
            let (before, bytes) = parted(given, size(words, 1));
            say_beside(alloc, before, bytes, answer)?
        }
        "parts" => say_parts(alloc, given, answer)?,
        "ids" => say_ids(alloc, given, answer)?,
        "filled" => say_filled(alloc, given, size(words, 1), answer)?,
        _ => return Ok(false),
    }
    Ok(true)
}

//! Asks of the lines of snapshots.

use cases::{number, say, word};
use feed_codec::check_snapshot;
use rt_report::{Accepted, accepted_line, refused_line};
use std::alloc::{AllocError, Global};

fn say_accepted(alloc: Global, words: &[String], out: &mut Vec<u8>) -> Result<(), AllocError> {
    let it = Accepted {
        feed: word(words, 1).parse().unwrap_or(0),
        row: number(words, 2),
        snapshot: number(words, 3),
        moment: number(words, 4),
        entities: number(words, 5),
        tested: number(words, 6),
        paired: number(words, 7),
        bounded: number(words, 8),
        peaked: number(words, 9),
    };
    let line = accepted_line(alloc, &it)?;
    out.extend_from_slice(&line)
}

fn say_refused(
    alloc: Global,
    words: &[String],
    given: &[u8],
    out: &mut Vec<u8>,
) -> Result<(), AllocError> {
    match check_snapshot(given) {
        Ok(()) => say(out, "accepted"),
        Err(refusal) => out.extend_from_slice(&refused_line(alloc, number(words, 1), &refusal)?),
    }
}

/// Answers `accepted FEED ROW SNAPSHOT MOMENT ENTITIES TESTED PAIRED BOUNDED PEAKED`, and `refused ROW` with a snapshot's bytes below.
pub fn answer(
    alloc: Global,
    words: &[String],
    given: &[u8],
    out: &mut Vec<u8>,
) -> Result<bool, AllocError> {
    match word(words, 0) {
        "accepted" => say_accepted(alloc, words, out)?,
        "refused" => say_refused(alloc, words, given, out)?,
        _ => return Ok(false),
    }
    Ok(true)
}

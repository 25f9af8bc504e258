//! What the trial makes.
ghost use Rattle.std.specs.Prelude.{◌≡◌};

use cases::{number, say, say_hex, size, word};
use rt_outside::read_whole;
use std::alloc::{AllocError, Global};
use trial_feed::{Trial, timetable_files};

/// The checksum of RFC 1950, section 9.
fn adler32(bytes: &[u8]) -> u64 {
    let mut low: u64 = 1;
    let mut high: u64 = 0;
    for byte in bytes {
        low = low.wrapping_add(u64::from(*byte)) % 65521;
        high = high.wrapping_add(low) % 65521;
    }
    high.wrapping_mul(65536).wrapping_add(low)
}

// How many bytes there are, and their checksum.
fn say_bytes(alloc: Global, bytes: &[u8], answer: &mut Vec<u8>) -> Result<(), AllocError> {
    let line = format!(in alloc; "{} {:08x}", bytes.len(), adler32(bytes))?;
    say(answer, line.as_str())
}

fn say_file(alloc: Global, name: &str, answer: &mut Vec<u8>) -> Result<(), AllocError> {
    let mut files = timetable_files(alloc)?;
    match read_whole(alloc, &mut files, name, 100_000) {
        Ok(bytes) => say_bytes(alloc, &bytes, answer),
        Err(end) => say(answer, format!(in alloc; "{end}")?.as_str()),
    }
}

fn say_snapshots(alloc: Global, seed: u64, answer: &mut Vec<u8>) -> Result<(), AllocError> {
    let mut trial = Trial::new(alloc, seed)?;
    for number in 0..40 {
        trial.advance(number);
        let bytes = trial.bytes(alloc, number)?;
        say_bytes(alloc, &bytes, answer)?;
    }
    Ok(())
}

// The first bytes of the trial's first snapshot.
fn say_front(
    alloc: Global,
    seed: u64,
    count: usize,
    answer: &mut Vec<u8>,
) -> Result<(), AllocError> {
    let mut trial = Trial::new(alloc, seed)?;
    trial.advance(0);
    let bytes = trial.bytes(alloc, 0)?;
    say_hex(alloc, answer, bytes.as_slice().get(..count).unwrap_or(&[]))
}

/// Answers `trial-file NAME`, `trial-snapshots SEED` and `trial-front SEED BYTES`.
pub fn answer(alloc: Global, words: &[String], answer: &mut Vec<u8>) -> Result<bool, AllocError> {
    match word(words, 0) {
        "trial-file" => say_file(alloc, word(words, 1), answer)?,
        "trial-snapshots" => say_snapshots(alloc, number(words, 1), answer)?,
        "trial-front" => say_front(alloc, number(words, 1), size(words, 2), answer)?,
        _ => return Ok(false),
    }
    Ok(true)
}

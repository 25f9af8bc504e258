//! Asks of files that are read.

use crate::counted::Counted;
use crate::drip::Drip;
use crate::held::Held;
use cases::{say, say_some, size, word};
use rt_outside::{Files, QuietFiles, ReadEnd, RealFiles, read_whole};
use std::alloc::{AllocError, Global};

// The file that is read by `read WAY NAME LIMIT`, or why it isn't.
fn read_in<F: Files>(
    alloc: Global,
    files: &mut F,
    words: &[String],
    out: &mut Vec<u8>,
) -> Result<(), AllocError> {
    match read_whole(alloc, files, word(words, 2), size(words, 3)) {
        Ok(bytes) => out.extend_from_slice(&bytes),
        Err(end) => say_some(alloc, out, Some(end)),
    }
}

// The same of files that nothing else is read from. They are of any type, so that a way out drops one value.
fn read<F: Files + Drop>(
    alloc: Global,
    mut files: F,
    words: &[String],
    out: &mut Vec<u8>,
) -> Result<(), AllocError> {
    read_in(alloc, &mut files, words, out)
}

// The same file read once and again.
fn read_again<F: Files + Drop>(
    alloc: Global,
    mut files: F,
    words: &[String],
    out: &mut Vec<u8>,
) -> Result<(), AllocError> {
    read_in(alloc, &mut files, words, out)?;
    read_in(alloc, &mut files, words, out)
}

// The file, how often it is opened, and how often another.
fn read_counted(
    alloc: Global,
    files: QuietFiles,
    words: &[String],
    out: &mut Vec<u8>,
) -> Result<(), AllocError> {
    let mut counted = Counted::new(files, word(words, 2));
    read_in(alloc, &mut counted, words, out)?;
    let (opened, others) = counted.openings();
    say(out, format!(in alloc; "{opened} {others}")?.as_str())
}

fn answer_read(
    rt: &HostRuntime,
    held: &Held,
    words: &[String],
    out: &mut Vec<u8>,
) -> Result<(), AllocError> {
    let alloc = rt.alloc();
    match word(words, 1) {
        "quiet" => read(alloc, held.quiet_files()?, words, out),
        "drip" => read(alloc, Drip::new(held.quiet_files()?), words, out),
        "counted" => read_counted(alloc, held.quiet_files()?, words, out),
        "again" => read_again(alloc, held.files()?, words, out),
        "real" => read(alloc, RealFiles::new(rt), words, out),
        _ => say(out, "no such way"),
    }
}

fn end_of(name: &str) -> ReadEnd {
    match name {
        "absent" => ReadEnd::Absent,
        "too-large" => ReadEnd::TooLarge,
        "read-fault" => ReadEnd::ReadFault,
        _ => ReadEnd::Memory,
    }
}

/// Answers `read WAY NAME LIMIT`, `pull-unopened`, and `end NAME`.
pub fn answer(
    rt: &HostRuntime,
    held: &Held,
    words: &[String],
    out: &mut Vec<u8>,
) -> Result<bool, AllocError> {
    match word(words, 0) {
        "read" => answer_read(rt, held, words, out)?,
        "pull-unopened" => {
            let pulled = RealFiles::new(rt).pull(&mut [0; 4]);
            say_some(rt.alloc(), out, pulled.ok())?;
        }
        "end" => say_some(rt.alloc(), out, Some(end_of(word(words, 1))))?,
        _ => return Ok(false),
    }
    Ok(true)
}

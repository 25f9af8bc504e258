//! Two calls for C and for whatever calls C: a snapshot as JSON, and the report on a snapshot, from bytes in memory to bytes in memory.
//!
//! They are the commands `show` and `check` over one file in memory, so the text and the answer are theirs. An answer is an exit
//! status of the program: 0 and 1 with the whole text, 4 where the buffer is too small, 5 where memory is. include/feed.h declares them.
//!
//! - `answering`: what was written, into the caller's buffer
#![tactic(auto)]

ghost use Rattle.std.specs.Prelude.{◌≡◌, ◌≤◌, length};

mod answering;

use crate::answering::answered;
use rt_outside::{MemoryFiles, MemorySink, Steps};
use run_base::Status;
use run_json::show;
use run_snapshot::report_file;
use std::alloc::{AllocError, Global};
use std::marker::Brand;
use std::sync::ledger::{Blank, Ledger};
use timetable::Timetable;

/// The name under which the bytes are held, which nobody sees.
const NAME: &str = "snapshot";

/// How many bytes the text on the error stream may have: it is not handed on.
const ERROR_ROOM: usize = 256;

// The snapshot of these bytes as `show` writes it.
fn shown(alloc: Global, bytes: &[u8], room: usize) -> Result<(Status, MemorySink), AllocError> {
    let mut files = MemoryFiles::new(alloc);
    files.add(NAME, bytes)?;
    let mut out = MemorySink::new(alloc, room)?;
    let mut err = MemorySink::new(alloc, ERROR_ROOM)?;
    let status = show(alloc, NAME, &mut files, &mut out, &mut err);
    Ok((status, out))
}

// The report of `check` on these bytes, without a timetable. Nobody asks what the counters stand at.
fn checked<D: Ledger, T: Ledger>(
    alloc: Global,
    bytes: &[u8],
    moment: u64,
    room: usize,
    decodes: Blank,
    tests: Blank,
) -> Result<(Status, MemorySink), AllocError>
    requires decodes_name { decodes.name ≡ D.name }
    requires decodes_parts { decodes.parts ≡ D.parts }
    requires decodes_one { decodes.parts ≡ 1 }
    requires tests_name { tests.name ≡ T.name }
    requires tests_parts { tests.parts ≡ T.parts }
    requires tests_one { tests.parts ≡ 1 }
{
    let mut files = MemoryFiles::new(alloc);
    files.add(NAME, bytes)?;
    let mut out = MemorySink::new(alloc, room)?;
    let mut err = MemorySink::new(alloc, ERROR_ROOM)?;
    let table = Timetable::absent(alloc);
    let mut decodes: Steps<D> = Steps::new(decodes);
    let mut tests: Steps<T> = Steps::new(tests);
    let status = report_file(
        alloc,
        moment,
        &table,
        NAME,
        &mut files,
        &mut out,
        &mut err,
        &mut decodes,
        &mut tests,
    );
    Ok((status, out))
}

/// Writes the JSON of a snapshot, or the line of one that is refused, to the front of `out`.
#[unsafe(no_mangle)]
pub extern "C" fn feed_decode(
    alloc: Global,
    bytes: &[u8],
    out: &mut [u8],
    written: &mut usize,
) -> u8
    ensures within { written.new ≤ length out.new }
    ensures kept { length out.new ≡ length out.old }
{
    answered(shown(alloc, bytes, out.len()), out, written)
}

/// Writes the report on a snapshot that was taken at this moment, in POSIX seconds, to the front of `out`.
#[unsafe(no_mangle)]
pub extern "C" fn feed_check(
    alloc: Global,
    bytes: &[u8],
    moment: u64,
    out: &mut [u8],
    written: &mut usize,
) -> u8
    ensures within { written.new ≤ length out.new }
    ensures kept { length out.new ≡ length out.old }
{
    let made = checked::<Brand, Brand>(
        alloc,
        bytes,
        moment,
        out.len(),
        Blank::new(1),
        Blank::new(1),
    );
    answered(made, out, written)
}

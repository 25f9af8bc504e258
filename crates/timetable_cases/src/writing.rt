//! Asks of sinks that are written to, and of steps.

ghost use Rattle.std.specs.Prelude.{◌≡◌};

use crate::held::Held;
use cases::{say, say_some, say_whether, size, word};
use rt_outside::{Failed, MemorySink, QuietSink, RealSink, Sink, Steps, put_all};
use std::alloc::{AllocError, Global};
use std::fs::{self, File};
use std::io;
use std::marker::Brand;
use std::sync::ledger::{Blank, Ledger};

fn say_put(put: Result<(), Failed>, out: &mut Vec<u8>) -> Result<(), AllocError> {
    match put {
        Ok(()) => say(out, "put"),
        Err(Failed) => say(out, "failed"),
    }
}

// Whether each piece is put, and what is written then.
fn put_pieces(
    sink: &mut MemorySink,
    pieces: &[String],
    out: &mut Vec<u8>,
) -> Result<(), AllocError> {
    for piece in pieces {
        say_put(put_all(sink, piece.as_bytes()), out)?;
        out.extend_from_slice(sink.written())?;
        say(out, "")?;
    }
    Ok(())
}

// What `put ROOM PIECE ..` gives, and then how many bytes of nothing are put.
fn put(alloc: Global, held: &Held, words: &[String], out: &mut Vec<u8>) -> Result<(), AllocError> {
    let mut sink = held.sink(size(words, 1))?;
    if words.len() > 2 {
        put_pieces(&mut sink, &words[2..], out)?;
    }
    say_some(alloc, out, sink.put(b"").ok())
}

fn put_real(file: io::Result<File>, bytes: &[u8], out: &mut Vec<u8>) -> Result<(), AllocError> {
    match file {
        Ok(file) => say_put(put_all(&mut RealSink::new(file), bytes), out),
        Err(_) => say(out, "no such file"),
    }
}

fn take_two_steps<L: Ledger>(blank: Blank)
    requires name { blank.name ≡ L.name }
    requires parts { blank.parts ≡ L.parts }
    requires one { blank.parts ≡ 1 }
{
    let mut steps: Steps<L> = Steps::new(blank);
    steps.tick();
    steps.tick();
}

/// Answers `put ROOM PIECE ..`, `put-quiet TEXT`, `put-real NAME` and `put-unwritable NAME`, whose bytes are given, `remove NAME`, and
/// `two-steps`.
pub fn answer(
    rt: &HostRuntime,
    held: &Held,
    words: &[String],
    given: &[u8],
    out: &mut Vec<u8>,
) -> Result<bool, AllocError> {
    let name = word(words, 1);
    match word(words, 0) {
        "put" => put(rt.alloc(), held, words, out)?,
        "put-quiet" => say_put(put_all(&mut QuietSink::new(), name.as_bytes()), out)?,
        "put-real" => put_real(File::create(rt, name), given, out)?,
        "put-unwritable" => put_real(File::open(rt, name), given, out)?,
        "remove" => say_whether(out, fs::remove_file(rt, name).is_ok())?,
        "two-steps" => {
            take_two_steps::<Brand>(Blank::new(1));
            say(out, "taken")?;
        }
        _ => return Ok(false),
    }
    Ok(true)
}

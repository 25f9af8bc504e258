//! `rt_command`: validates GTFS Realtime 2.0 feeds.
//!
//! It joins [`run`] to the system: its files, its streams, its clock and its words. What is written then, and the exit status,
//! is what the contract of `run` says.
#![tactic(auto)]

ghost use Rattle.std.specs.Prelude.{◌≡◌};

use rt_outside::{RealFiles, RealSink, Steps, put_all};
use rt_run::{Status, run};
use std::alloc::AllocError;
use std::env;
use std::io::ErrorKind;
use std::marker::Brand;
use std::process::ExitCode;
use std::sync::ledger::{Blank, Ledger};
use std::time::{SystemTime, UNIX_EPOCH};

// The words after the program's name, or one empty word where they aren't texts.
fn given_words(rt: &HostRuntime) -> Result<Vec<String>, AllocError> {
    let mut words = Vec::new(rt.alloc());
    match env::args(rt) {
        Ok(args) => {
            for word in args.skip(1) {
                words.push(word)?;
            }
        }
        Err(error) => {
            if error.kind() == ErrorKind::OutOfMemory {
                return Err(AllocError);
            }
            words.push(String::new(rt.alloc()))?;
        }
    }
    Ok(words)
}

// The seconds since 1970, or 0 where the clock can't be read or stands before.
fn moment(rt: &HostRuntime) -> u64 {
    let Ok(time) = SystemTime::now(rt) else {
        return 0;
    };
    match time.duration_since(UNIX_EPOCH) {
        Ok(since) => since.as_secs(),
        Err(_) => 0,
    }
}

// Runs over the system's files and streams.
fn run_outside<D: Ledger, T: Ledger>(
    rt: &HostRuntime,
    words: &[String],
    decodes: Blank,
    tests: Blank,
) -> Status
    requires decodes_name { decodes.name ≡ D.name }
    requires decodes_parts { decodes.parts ≡ D.parts }
    requires decodes_one { decodes.parts ≡ 1 }
    requires tests_name { tests.name ≡ T.name }
    requires tests_parts { tests.parts ≡ T.parts }
    requires tests_one { tests.parts ≡ 1 }
{
    let mut files = RealFiles::new(rt);
    let mut out = RealSink::new(rt.stdout());
    let mut err = RealSink::new(rt.stderr());
    let mut decodes: Steps<D> = Steps::new(decodes);
    let mut tests: Steps<T> = Steps::new(tests);
    run(
        rt.alloc(),
        words,
        moment(rt),
        &mut files,
        &mut out,
        &mut err,
        &mut decodes,
        &mut tests,
    )
}

fn main(rt: HostRuntime) -> ExitCode {
    let status = match given_words(&rt) {
        Ok(words) => run_outside::<Brand, Brand>(&rt, &words, Blank::new(1), Blank::new(1)),
        Err(_) => {
            let _ = put_all(&mut RealSink::new(rt.stderr()), b"out of memory\n");
            Status::Memory
        }
    };
    ExitCode::from(status.number())
}

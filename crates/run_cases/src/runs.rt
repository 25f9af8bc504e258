//! Runs, and what they leave.
ghost use Rattle.std.specs.Prelude.{◌≡◌};

use crate::counted::say_work;
use crate::ended::{Ended, Sinks, say_members, say_status, told_filled, told_lines};
use crate::odd_files::{Dripping, Endless};
use crate::setting::{Giving, Setting};
use crate::spans::Spans;
use cases::word;
use rt_outside::{Files, Steps};
use rt_run::{Status, run};
use std::alloc::{AllocError, Global};
use std::marker::Brand;
use std::sync::ledger::{Blank, Ledger};

// The statuses of a run that couldn't read, couldn't write, and found no memory.
const READ_FAULT: u8 = 3;

const WRITE_FAULT: u8 = 4;

const OUT_OF_MEMORY: u8 = 5;

// How many runs an ask for each of them makes at most.
const MOST_RUNS: u64 = 10_000;

/// What stands before a run, and what the last one wrote.
#[derive(Drop)]
pub struct Runs {
    alloc: Global,
    pub setting: Setting,
    written: Vec<u8>,
}

// Runs over these files, with counters that are made of these blanks.
fn run_counted<F: Files, D: Ledger, T: Ledger>(
    alloc: Global,
    words: &[String],
    now: u64,
    files: &mut F,
    sinks: &mut Sinks,
    decodes: Blank,
    tests: Blank,
) -> Status
    requires decodes_name { decodes.name ≡ D.name }
    requires decodes_parts { decodes.parts ≡ D.parts }
    requires decodes_one { decodes.parts ≡ 1 }
    requires tests_name { tests.name ≡ T.name }
    requires tests_parts { tests.parts ≡ T.parts }
    requires tests_one { tests.parts ≡ 1 }
{
    let mut decodes: Steps<D> = Steps::new(decodes);
    let mut tests: Steps<T> = Steps::new(tests);
    run(
        alloc,
        words,
        now,
        files,
        &mut sinks.out,
        &mut sinks.err,
        &mut decodes,
        &mut tests,
    )
}

fn run_over<F: Files>(
    alloc: Global,
    words: &[String],
    now: u64,
    files: &mut F,
    sinks: &mut Sinks,
) -> u8 {
    run_counted::<F, Brand, Brand>(
        alloc,
        words,
        now,
        files,
        sinks,
        Blank::new(1),
        Blank::new(1),
    )
    .number()
}

impl Runs {
    /// No files, and nothing that was written.
    pub fn new(alloc: Global) -> Runs {
        Runs {
            alloc,
            setting: Setting::new(alloc),
            written: Vec::new(alloc),
        }
    }

    fn status(&self, words: &[String], sinks: &mut Sinks) -> Result<u8, AllocError> {
        let mut files = self.setting.files()?;
        let now = self.setting.moment;
        Ok(match self.setting.giving {
            Giving::AsAsked => run_over(self.alloc, words, now, &mut files, sinks),
            Giving::Dripping => run_over(self.alloc, words, now, &mut Dripping { files }, sinks),
            Giving::Endless => run_over(self.alloc, words, now, &mut Endless {}, sinks),
        })
    }

    // Runs.
    fn end(&self, words: &[String]) -> Result<Ended, AllocError> {
        let mut sinks = Sinks {
            out: self.setting.out()?,
            err: self.setting.err()?,
        };
        let status = self.status(words, &mut sinks)?;
        // No case can want it, and where each allocation is made to fail in turn, this program is to end so too.
        if status == OUT_OF_MEMORY {
            return Err(AllocError);
        }
        Ok(Ended { status, sinks })
    }

    // Runs, says the status and what was written to the error stream, and keeps what was written to the output.
    fn say_ended(&mut self, words: &[String], answer: &mut Vec<u8>) -> Result<(), AllocError> {
        let ended = self.end(words)?;
        say_status(self.alloc, ended.status, ended.sinks.err.written(), answer)?;
        self.written = Vec::from_slice(self.alloc, ended.sinks.out.written())?;
        Ok(())
    }

    // Runs with each call of the files or of a sink failing in turn, up to the first run that doesn't end by it.
    fn say_each_fault(
        &mut self,
        what: &str,
        words: &[String],
        answer: &mut Vec<u8>,
    ) -> Result<(), AllocError> {
        self.setting.clear_faults();
        let whole = self.end(words)?;
        let fault = if what == "files" {
            READ_FAULT
        } else {
            WRITE_FAULT
        };
        let mut spans = Spans::new(self.alloc);
        for call in 0..MOST_RUNS {
            self.setting.fail_alone(what, call)?;
            let ended = self.end(words)?;
            spans.add(call, told_lines(self.alloc, &ended, &whole)?)?;
            if ended.status != fault {
                break;
            }
        }
        self.setting.clear_faults();
        spans.say(answer)
    }

    // Runs with each room of the output, up to the first that is enough.
    fn say_each_room(&mut self, words: &[String], answer: &mut Vec<u8>) -> Result<(), AllocError> {
        self.setting.clear_faults();
        let whole = self.end(words)?;
        let mut spans = Spans::new(self.alloc);
        for room in 0..MOST_RUNS as usize {
            self.setting.limit("out", room);
            let ended = self.end(words)?;
            spans.add(room as u64, told_filled(self.alloc, &ended, &whole, room)?)?;
            if ended.status != WRITE_FAULT {
                break;
            }
        }
        self.setting.clear_faults();
        spans.say(answer)
    }

    /// Answers `run WORD..` with its status and all that it writes, `end WORD..` with its status and what it writes to the error
    /// stream, and then `members NAME..` with these members of the line that it wrote, or `work` with how much its lines count. `out-as NAME`
    /// makes a file of what it wrote.
    ///
    /// `each-fault files|out|err WORD..` runs with call 0 failing alone, then with call 1, and so on up to the first run that doesn't end by
    /// it, which is told too. `each-room WORD..` runs with room in the output for 0 bytes, 1 byte and so on, up to the first room that is
    /// enough. Runs in a row of which the same is told are one line. Calls that the case had fail before, and rooms, are forgotten.
    pub fn answer(&mut self, words: &[String], answer: &mut Vec<u8>) -> Result<bool, AllocError> {
        let rest = words.get(1..).unwrap_or(&[]);
        match word(words, 0) {
            "run" => {
                self.say_ended(rest, answer)?;
                answer.extend_from_slice(&self.written)?;
            }
            "end" => self.say_ended(rest, answer)?,
            "each-fault" => self.say_each_fault(
                word(words, 1),
                words.get(2..).unwrap_or(&[]),
                answer,
            )?,
            "each-room" => self.say_each_room(rest, answer)?,
            "members" => say_members(self.alloc, &self.written, rest, answer)?,
            "work" => say_work(self.alloc, &self.written, answer)?,
            "out-as" => self.setting.put_written(word(words, 1), &mut self.written)?,
            _ => return Ok(false),
        }
        Ok(true)
    }
}

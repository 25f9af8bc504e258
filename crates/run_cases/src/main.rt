//! Runs over files and sinks in memory, whose cases are the texts in data/ that the arguments name.
//!
//! - `setting` has what stands before a run: its files, its moment, and which calls are to fail; `odd_files` are files that give a
//!   byte at a time, or have no end
//! - `runs` runs, `counted` adds up what its lines count, `ended` tells what a run has left, and `spans` tells once what is the same of runs in a row
//! - `trials` asks what the trial makes
//!
//! The answers of `wrong.cases` are wrong on purpose: `stdout` has what is told of them, so that the gate sees that a wrong answer is
//! told with its text, line and case.
#![tactic(auto)]

mod counted;
mod ended;
mod odd_files;
mod runs;
mod setting;
mod spans;
mod trials;

use crate::runs::Runs;
use cases::{Asked, judge, say, word_list};
use std::alloc::{AllocError, Global};
use std::{env, fs, io};

// What the asks of one text are put to.
#[derive(Drop)]
struct Asks {
    alloc: Global,
    runs: Runs,
}

impl Asked for Asks {
    fn begin(&mut self) {
        self.runs.setting.begin();
    }

    fn answer(&mut self, ask: &str, given: &[u8], answer: &mut Vec<u8>) -> Result<(), AllocError> {
        let words = word_list(self.alloc, ask)?;
        if self.runs.setting.take(&words, given)?
            || self.runs.answer(&words, answer)?
            || trials::answer(self.alloc, &words, answer)?
        {
            return Ok(());
        }
        say(answer, "no such ask")
    }
}

fn judge_file(rt: &HostRuntime, name: &str) -> io::Result<()> {
    let text = fs::read_to_string(rt, name)?;
    let alloc = rt.alloc();
    let mut asked = Asks {
        alloc,
        runs: Runs::new(alloc),
    };
    let told = judge(alloc, name, text.as_str(), &mut asked)?;
    print!(rt; "{told}")
}

fn main(rt: HostRuntime) -> io::Result<()> {
    for name in env::args(&rt)?.skip(1) {
        judge_file(&rt, name.as_str())?;
    }
    Ok(())
}

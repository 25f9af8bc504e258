//! Answers cases of files and sinks, of days, of timetables and of lists of snapshots: texts in data/, which the arguments name.
//!
//! `held` has the files that a case names, `days` answers asks of days, `tables` and `trips` those of a timetable, `agreeing` those of two,
//! `lists` those of a list, `reading` and `writing` those of files and sinks. `drip`, `counted` and `lengthened` are files that give their bytes in ways of
//! their own.
#![tactic(auto)]

mod agreeing;
mod counted;
mod days;
mod drip;
mod held;
mod lengthened;
mod lists;
mod reading;
mod tables;
mod trips;
mod writing;

use crate::held::Held;
use cases::{Asked, judge, say, word_list};
use std::alloc::{AllocError, Global};
use std::{env, fs, io};

// What answers the asks of a text.
#[derive(Drop)]
struct Answers<'a> {
    rt: &'a HostRuntime,
    alloc: Global,
    held: Held,
}

impl Asked for Answers<'_> {
    fn begin(&mut self) {
        self.held.begin();
    }

    fn answer(&mut self, ask: &str, given: &[u8], answer: &mut Vec<u8>) -> Result<(), AllocError> {
        let words = word_list(self.alloc, ask)?;
        if self.held.take(&words, given)?
            || days::answer(self.alloc, &words, answer)?
            || tables::answer(self.alloc, &self.held, &words, answer)?
            || agreeing::answer(self.alloc, &self.held, &words, given, answer)?
            || lists::answer(self.alloc, &self.held, &words, answer)?
            || reading::answer(self.rt, &self.held, &words, answer)?
            || writing::answer(self.rt, &self.held, &words, given, answer)?
        {
            return Ok(());
        }
        say(answer, "no such ask")
    }
}

fn judge_text(rt: &HostRuntime, name: &str) -> io::Result<()> {
    let text = fs::read_to_string(rt, name)?;
    let alloc = rt.alloc();
    let mut answers = Answers {
        rt,
        alloc,
        held: Held::new(alloc),
    };
    let told = judge(alloc, name, text.as_str(), &mut answers)?;
    print!(rt; "{told}")
}

fn main(rt: HostRuntime) -> io::Result<()> {
    for name in env::args(&rt)?.skip(1) {
        judge_text(&rt, name.as_str())?;
    }
    Ok(())
}

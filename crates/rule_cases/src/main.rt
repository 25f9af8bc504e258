//! Asks of the rules, whose cases are the texts in data/ that the arguments name.
//!
//! A fact is a line `ASK KEY.. is VALUE`, with the names of the report's lines: a number, a text in quotes, or `missing`.
//!
//! - `paths`, `rules`: paths and rules by their texts
//! - `asks`, `facts`: facts by their lines
//! - `claims`: facts of which a rule is asked
//! - `findings`, `lists`: findings, their lines, copies and lists
//! - `lines`: the lines of snapshots
#![tactic(auto)]

mod asks;
mod claims;
mod facts;
mod findings;
mod lines;
mod lists;
mod paths;
mod rules;

use crate::lists::Findings;
use cases::{Asked, judge, say, word_list};
use std::alloc::{AllocError, Global};
use std::{env, fs, io};

// What the asks of one text are put to.
#[derive(Drop)]
struct RuleAsks {
    alloc: Global,
    findings: Findings,
}

impl Asked for RuleAsks {
    fn begin(&mut self) {
        self.findings.begin();
    }

    fn answer(&mut self, ask: &str, given: &[u8], answer: &mut Vec<u8>) -> Result<(), AllocError> {
        let words = word_list(self.alloc, ask)?;
        if findings::answer(self.alloc, &words, given, answer)?
            || self.findings.answer(&words, given, answer)?
            || lines::answer(self.alloc, &words, given, answer)?
        {
            return Ok(());
        }
        say(answer, "no such ask")
    }
}

fn judge_file(rt: &HostRuntime, name: &str) -> io::Result<()> {
    let text = fs::read_to_string(rt, name)?;
    let alloc = rt.alloc();
    let mut asked = RuleAsks {
        alloc,
        findings: Findings::new(alloc),
    };
    let told = judge(alloc, name, text.as_str(), &mut asked)?;
    print!(rt; "{told}")
}

fn main(rt: HostRuntime) -> io::Result<()> {
    for name in env::args(&rt)?.skip(1) {
        judge_file(&rt, name.as_str())?;
    }
    Ok(())
}

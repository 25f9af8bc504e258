//! Asks of the rows, timestamps and peaks that are held from snapshot to snapshot, and of the keys that one touches, and of the entities that are
//! held, whose cases are the texts in data/ that the arguments name.
//!
//! - `entities`: entities by their bytes
//! - `keys`: keys of entities in text
//! - `held`: the asks of rows and timestamps
//! - `coming`: what comes into an index of entities
//! - `indexes`: the asks of such an index
//! - `numbers`: the asks of the numbers that pairing rows' ids have
//! - `peaks`: the asks of peaks
#![tactic(auto)]

mod coming;
mod entities;
mod held;
mod indexes;
mod keys;
mod numbers;
mod peaks;

use crate::held::HeldAsks;
use crate::indexes::IndexAsks;
use crate::numbers::NumberAsks;
use crate::peaks::PeakAsks;
use cases::{Asked, judge, say, word_list};
use std::alloc::{AllocError, Global};
use std::{env, fs, io};

// What the asks of one text are put to.
#[derive(Drop)]
struct RowAsks {
    alloc: Global,
    held: HeldAsks,
    index: IndexAsks,
    numbers: NumberAsks,
    peaks: PeakAsks,
}

impl Asked for RowAsks {
    fn begin(&mut self) {
        self.held.begin();
        self.index.begin();
        self.numbers.begin();
        self.peaks.begin();
    }

    fn answer(&mut self, ask: &str, given: &[u8], answer: &mut Vec<u8>) -> Result<(), AllocError> {
        let words = word_list(self.alloc, ask)?;
        if self.held.answer(&words, given, answer)?
            || self.index.answer(&words, given, answer)?
            || self.numbers.answer(&words, answer)?
            || self.peaks.answer(&words, &mut self.index, answer)?
        {
            return Ok(());
        }
        say(answer, "no such ask")
    }
}

fn judged(alloc: Global, name: &str, text: &str) -> Result<String, AllocError> {
    let mut asks = RowAsks {
        alloc,
        held: HeldAsks::new(alloc),
        index: IndexAsks::new(alloc),
        numbers: NumberAsks::new(alloc),
        peaks: PeakAsks::new(alloc),
    };
    judge(alloc, name, text, &mut asks)
}

fn judge_file(rt: &HostRuntime, name: &str) -> io::Result<()> {
    let text = fs::read_to_string(rt, name)?;
    let told = judged(rt.alloc(), name, text.as_str())?;
    print!(rt; "{told}")
}

fn main(rt: HostRuntime) -> io::Result<()> {
    for name in env::args(&rt)?.skip(1) {
        judge_file(&rt, name.as_str())?;
    }
    Ok(())
}

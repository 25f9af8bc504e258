//! Asks of the engine, of its two indexes and of rules at whole entities, whose cases are the texts in data/ that the arguments name.
//!
//! - `messages`: the rules within one message at an entity
//! - `pairs`: an index of pairing rows
//! - `stamps`: an index of timestamps
//! - `engines`: an engine that follows feeds; `told` writes what it says
//! - `keys`: keys of entities in text
#![tactic(auto)]

mod engines;
mod keys;
mod messages;
mod pairs;
mod stamps;
mod told;

use crate::engines::EngineAsks;
use crate::pairs::PairAsks;
use crate::stamps::StampAsks;
use cases::{Asked, judge, say, word_list};
use std::alloc::{AllocError, Global};
use std::{env, fs, io};

// What the asks of one text are put to.
#[derive(Drop)]
struct Asks {
    alloc: Global,
    pairs: PairAsks,
    stamps: StampAsks,
    engine: EngineAsks,
}

impl Asked for Asks {
    fn begin(&mut self) {
        self.pairs.begin();
        self.stamps.begin();
        self.engine.begin();
    }

    fn answer(&mut self, ask: &str, given: &[u8], answer: &mut Vec<u8>) -> Result<(), AllocError> {
        let words = word_list(self.alloc, ask)?;
        if messages::answer(self.alloc, &words, given, answer)?
            || self.pairs.answer(ask, &words, given, answer)?
            || self.stamps.answer(&words, answer)?
            || self.engine.answer(&words, given, answer)?
        {
            return Ok(());
        }
        say(answer, "no such ask")
    }
}

// What is told of a text. The one way out drops the indexes and the engine.
fn judged(alloc: Global, name: &str, text: &str) -> Result<String, AllocError> {
    let mut asks = Asks {
        alloc,
        pairs: PairAsks::new(alloc),
        stamps: StampAsks::new(alloc),
        engine: EngineAsks::new(alloc),
    };
    judge(alloc, name, text, &mut asks)
}

fn judge_file(rt: &HostRuntime, name: &str) -> io::Result<()> {
    let text = fs::read_to_string(rt, name)?;
    let told = judged(rt.alloc(), name, text.as_str())?;
    print!(rt; "{told}")
}

fn main(rt: HostRuntime) -> io::Result<()> {
    for name in env::args(&rt)?.skip(1) {
        judge_file(&rt, name.as_str())?;
    }
    Ok(())
}

//! Asks of rt_wire, feed_values, feed_codec, feed_stream and feed_json, whose cases are the texts in data/ that the arguments name.
//!
//! - `wire`: varints, fields and groups; `wire_values` has values in words
//! - `values`: what is well formed, copies, and the texts of paths
//! - `snapshots`: whole snapshots, checked, decoded and written; `parts`: an entity and a header by themselves
//! - `pieces`: snapshots that come in pieces, and the parts of a kept one
//! - `json`: the JSON form of a snapshot, both ways
//! - `cells`, `faults`, `slots`: lines of the cells of a value, and of faults; all slots
#![tactic(auto)]

mod cells;
mod faults;
mod json;
mod parts;
mod pieces;
mod slots;
mod snapshots;
mod values;
mod wire;
mod wire_values;

use cases::{Asked, judge, say, word_list};
use std::alloc::{AllocError, Global};
use std::{env, fs, io};

/// What the asks of a text are put to. Nothing of a case stays for the next one.
#[derive(Drop)]
struct Feeds {
    alloc: Global,
}

impl Asked for Feeds {
    fn begin(&mut self) {}

    fn answer(&mut self, ask: &str, given: &[u8], answer: &mut Vec<u8>) -> Result<(), AllocError> {
        let alloc = self.alloc;
        let words = word_list(alloc, ask)?;
        if wire::answer(alloc, &words, given, answer)?
            || values::answer(alloc, &words, given, answer)?
            || snapshots::answer(alloc, &words, given, answer)?
            || parts::answer(alloc, &words, given, answer)?
            || pieces::answer(alloc, &words, given, answer)?
            || json::answer(alloc, &words, given, answer)?
        {
            return Ok(());
        }
        say(answer, "no such ask")
    }
}

fn judge_file(rt: &HostRuntime, name: &str) -> io::Result<()> {
    let text = fs::read_to_string(rt, name)?;
    let alloc = rt.alloc();
    let told = judge(alloc, name, text.as_str(), &mut Feeds { alloc })?;
    print!(rt; "{told}")
}

fn main(rt: HostRuntime) -> io::Result<()> {
    for name in env::args(&rt)?.skip(1) {
        judge_file(&rt, name.as_str())?;
    }
    Ok(())
}

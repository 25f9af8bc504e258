//! Answers cases of zones, of service days and of predictions: texts in data/, which the arguments name.
//!
//! `setting` has the timetable and the zone that are asked about, `keyed` finds what an ask gives under a name, `updates` makes trip
//! updates of it. `zones` answers asks of a zone, `calendar` those of a trip's days and times, `predictions` those of what is predicted.
#![tactic(auto)]

mod calendar;
mod keyed;
mod predictions;
mod setting;
mod updates;
mod zones;

use crate::setting::Setting;
use cases::{Asked, judge, say, word_list};
use std::alloc::{AllocError, Global};
use std::{env, fs, io};

// Answers an ask of what is set.
fn answer_of(
    alloc: Global,
    setting: &Setting,
    words: &[String],
    given: &[u8],
    out: &mut Vec<u8>,
) -> Result<(), AllocError> {
    let table = setting.table();
    let Some(zone) = setting.zone() else {
        return say(out, "no zone");
    };
    if zones::answer(alloc, zone, words, out)?
        || calendar::answer(alloc, table, zone, words, out)?
        || predictions::answer(alloc, table, zone, words, given, out)?
    {
        return Ok(());
    }
    say(out, "no such ask")
}

// What answers the asks of a text.
#[derive(Drop)]
struct Answers {
    alloc: Global,
    setting: Setting,
}

impl Asked for Answers {
    fn begin(&mut self) {
        self.setting.begin();
    }

    fn answer(&mut self, ask: &str, given: &[u8], answer: &mut Vec<u8>) -> Result<(), AllocError> {
        let words = word_list(self.alloc, ask)?;
        if self.setting.take(&words, given, answer)? {
            return Ok(());
        }
        answer_of(self.alloc, &self.setting, &words, given, answer)
    }
}

fn judge_text(rt: &HostRuntime, name: &str) -> io::Result<()> {
    let text = fs::read_to_string(rt, name)?;
    let alloc = rt.alloc();
    let mut answers = Answers {
        alloc,
        setting: Setting::new(alloc)?,
    };
    let told = judge(alloc, name, text.as_str(), &mut answers)?;
    print!(rt; "{told}")
}

fn main(rt: HostRuntime) -> io::Result<()> {
    for name in env::args(&rt)?.skip(1) {
        judge_text(&rt, name.as_str())?;
    }
    Ok(())
}

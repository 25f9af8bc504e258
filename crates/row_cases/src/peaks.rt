//! The asks of peaks, and of what a snapshot raises among them.

use crate::indexes::IndexAsks;
use crate::keys::{key_of, keys_text};
use cases::{number, say, say_some, say_whether, word};
use feed_values::Items;
use history_rules::Peaks;
use rule_table::{EntityKey, PeakView};
use std::alloc::{AllocError, Global};
use std::mem;

/// Peaks of no vehicle as a case begins.
#[derive(Drop)]
pub struct PeakAsks {
    alloc: Global,
    peaks: Peaks,
}

fn feed_of(words: &[String]) -> u8 {
    word(words, 1).parse().unwrap_or(0)
}

// The keys of `ASK FEED ID..`, each the first of its id.
fn keys_of(alloc: Global, words: &[String]) -> Result<Items<EntityKey>, AllocError> {
    let mut keys = Items::new(alloc);
    for id in words.iter().skip(2) {
        keys.push(key_of(alloc, feed_of(words), id.as_str(), 0)?)?;
    }
    Ok(keys)
}

impl PeakAsks {
    pub fn new(alloc: Global) -> PeakAsks {
        PeakAsks {
            alloc,
            peaks: Peaks::new(alloc),
        }
    }

    pub fn begin(&mut self) {
        self.peaks = Peaks::new(self.alloc);
    }

    // The peaks are taken out.
    fn peaks(&mut self) -> Peaks {
        mem::replace(&mut self.peaks, Peaks::new(self.alloc))
    }

    fn raise(&mut self, words: &[String]) -> Result<(), AllocError> {
        let peaks = self.peaks();
        self.peaks = peaks.raise(feed_of(words), word(words, 2), number(words, 3))?;
        Ok(())
    }

    fn say_raised(&mut self, words: &[String], out: &mut Vec<u8>) -> Result<(), AllocError> {
        let stamp = number(words, 3);
        say_whether(
            out,
            self.peaks.raise_in(feed_of(words), word(words, 2), stamp)?,
        )
    }

    fn say_peak(&self, words: &[String], out: &mut Vec<u8>) -> Result<(), AllocError> {
        let peak = self.peaks.peak(feed_of(words), word(words, 2));
        say_some(self.alloc, out, peak)
    }

    // Raises the peaks of a feed by what is held of it.
    fn say_rises(
        &mut self,
        words: &[String],
        index: &mut IndexAsks,
        out: &mut Vec<u8>,
    ) -> Result<(), AllocError> {
        let gone = keys_of(self.alloc, words)?;
        let (rises, keys) = index.rises(&self.peaks, feed_of(words), gone.as_slice())?;
        let peaks = self.peaks();
        self.peaks = rises.raise(peaks, feed_of(words))?;
        say(out, keys_text(self.alloc, &keys)?.as_str())
    }

    /// Takes `raise FEED VEHICLE STAMP`, and answers `raised FEED VEHICLE STAMP`, which is the same, by whether it changed the peak, and
    /// `peak FEED VEHICLE`. `rises FEED GONE..` raises the peaks of a feed by the snapshot that the index holds, and answers the keys of
    /// the entities whose vehicle has another peak then, but for those whose ids are told.
    pub fn answer(
        &mut self,
        words: &[String],
        index: &mut IndexAsks,
        out: &mut Vec<u8>,
    ) -> Result<bool, AllocError> {
        match word(words, 0) {
            "raise" => self.raise(words)?,
            "raised" => self.say_raised(words, out)?,
            "peak" => self.say_peak(words, out)?,
            "rises" => self.say_rises(words, index, out)?,
            _ => return Ok(false),
        }
        Ok(true)
    }
}

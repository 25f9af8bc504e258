//! Asks of an index of timestamps.

use crate::keys::keys_text;
use cases::{number, say, word};
use history_rules::StampIndex;
use rule_table::{EntityId, EntityKey};
use std::alloc::{AllocError, Global};
use std::mem;

/// An index, which is empty as a case begins.
#[derive(Drop)]
pub struct StampAsks {
    alloc: Global,
    index: StampIndex,
}

fn feed_of(words: &[String]) -> u8 {
    word(words, 1).parse().unwrap_or(0)
}

// The key of `ASK FEED MOMENT ID`.
fn key_of(alloc: Global, words: &[String]) -> Result<EntityKey, AllocError> {
    Ok(EntityKey {
        feed: feed_of(words),
        id: EntityId::of(alloc, word(words, 3))?,
        occurrence: 0,
    })
}

impl StampAsks {
    pub fn new(alloc: Global) -> StampAsks {
        StampAsks {
            alloc,
            index: StampIndex::new(alloc),
        }
    }

    pub fn begin(&mut self) {
        self.index = StampIndex::new(self.alloc);
    }

    fn put(&mut self, words: &[String]) -> Result<(), AllocError> {
        let key = key_of(self.alloc, words)?;
        let index = mem::replace(&mut self.index, StampIndex::new(self.alloc));
        self.index = index.add(feed_of(words), number(words, 2), key)?;
        Ok(())
    }

    fn take(&mut self, words: &[String]) -> Result<(), AllocError> {
        let key = key_of(self.alloc, words)?;
        self.index.take_out(feed_of(words), number(words, 2), &key);
        Ok(())
    }

    fn say_above(&self, words: &[String], out: &mut Vec<u8>) -> Result<(), AllocError> {
        match word(words, 2).parse() {
            Ok(bound) => {
                let keys = self.index.above(self.alloc, feed_of(words), bound)?;
                say(out, keys_text(self.alloc, &keys)?.as_str())
            }
            Err(_) => say(out, "no such bound"),
        }
    }

    /// Takes `stamp FEED MOMENT ID` and `unstamp FEED MOMENT ID`, and answers `above FEED BOUND`.
    pub fn answer(&mut self, words: &[String], out: &mut Vec<u8>) -> Result<bool, AllocError> {
        match word(words, 0) {
            "stamp" => self.put(words)?,
            "unstamp" => self.take(words)?,
            "above" => self.say_above(words, out)?,
            _ => return Ok(false),
        }
        Ok(true)
    }
}

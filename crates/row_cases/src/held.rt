//! The asks.

use crate::entities::entity_of;
use crate::keys::{key_of, keys_text};
use cases::{number, say, say_some, size, word};
use feed_values::{Entity, Items};
use row_changes::{ChangedIds, HeldRows, Kinds, bounded_keys, keys_above, low_bound, paired_keys};
use rule_table::EntityKey;
use std::alloc::{AllocError, Global};
use std::mem;

/// What is held, which is nothing as a case begins, and what a snapshot changed of it so far.
#[derive(Drop)]
pub struct HeldAsks {
    alloc: Global,
    held: HeldRows,
    ids: ChangedIds,
    kinds: Kinds,
    limited: Items<EntityKey>,
    old: Vec<u8>,
    new: Vec<u8>,
}

fn feed_of(words: &[String]) -> u8 {
    word(words, 1).parse().unwrap_or(0)
}

// A bound, or none where the word is `-`.
fn bound_of(word: &str) -> Option<u128> {
    match word.parse() {
        Ok(bound) => Some(bound),
        Err(_) => None,
    }
}

fn stamp_of(word: &str) -> Option<u64> {
    match word.parse() {
        Ok(stamp) => Some(stamp),
        Err(_) => None,
    }
}

const NO_KINDS: Kinds = Kinds {
    updates: false,
    vehicles: false,
};

impl HeldAsks {
    pub fn new(alloc: Global) -> HeldAsks {
        HeldAsks {
            alloc,
            held: HeldRows::new(alloc),
            ids: ChangedIds::new(alloc),
            kinds: NO_KINDS,
            limited: Items::new(alloc),
            old: Vec::new(alloc),
            new: Vec::new(alloc),
        }
    }

    pub fn begin(&mut self) {
        self.held = HeldRows::new(self.alloc);
        self.ids = ChangedIds::new(self.alloc);
        self.kinds = NO_KINDS;
        self.limited = Items::new(self.alloc);
        self.old.clear();
        self.new.clear();
    }

    // A snapshot of a feed begins, whose last one had a bound or wasn't there.
    fn start(&mut self, words: &[String]) -> Result<(), AllocError> {
        self.ids = ChangedIds::new(self.alloc);
        self.kinds = Kinds::of(&self.held.pairs);
        self.limited = keys_above(
            self.alloc,
            &self.held.stamps,
            feed_of(words),
            bound_of(word(words, 2)),
        )?;
        Ok(())
    }

    fn update(
        &mut self,
        key: &EntityKey,
        old: Option<&Entity>,
        new: Option<&Entity>,
    ) -> Result<(), AllocError> {
        let held = mem::replace(&mut self.held, HeldRows::new(self.alloc));
        self.held = held.update(self.alloc, key, old, new, &mut self.ids)?;
        Ok(())
    }

    // The old and the new entity exchanged, and forgotten.
    fn exchange(&mut self, words: &[String]) -> Result<(), AllocError> {
        let occurrence = word(words, 3).parse().unwrap_or(0);
        let key = key_of(self.alloc, feed_of(words), word(words, 2), occurrence)?;
        let old = entity_of(self.alloc, self.old.as_slice())?;
        let new = entity_of(self.alloc, self.new.as_slice())?;
        self.update(&key, old.as_ref(), new.as_ref())?;
        self.old.clear();
        self.new.clear();
        Ok(())
    }

    // As many entities with ids of their own come as are asked for, all with the same bytes.
    fn come(&mut self, words: &[String], given: &[u8]) -> Result<(), AllocError> {
        let entity = entity_of(self.alloc, given)?;
        for at in 0..size(words, 2) {
            let id = format!(in self.alloc; "e{at}")?;
            let key = key_of(self.alloc, feed_of(words), id.as_str(), 0)?;
            self.update(&key, None, entity.as_ref())?;
        }
        Ok(())
    }

    fn paired(&self) -> Result<Items<EntityKey>, AllocError> {
        paired_keys(self.alloc, &self.held.pairs, &self.ids, self.kinds)
    }

    fn say_bounded(&mut self, words: &[String], out: &mut Vec<u8>) -> Result<(), AllocError> {
        let limited = mem::replace(&mut self.limited, Items::new(self.alloc));
        let bound = bound_of(word(words, 2)).unwrap_or(0);
        let keys = bounded_keys(
            self.alloc,
            &self.held.stamps,
            feed_of(words),
            bound,
            limited,
        )?;
        say(out, keys_text(self.alloc, &keys)?.as_str())
    }

    fn say_low(&self, words: &[String], out: &mut Vec<u8>) -> Result<(), AllocError> {
        let low = low_bound(stamp_of(word(words, 1)), number(words, 2));
        say(out, format!(in self.alloc; "{low}")?.as_str())
    }

    /// Takes `snapshot FEED BOUND`, with the bound of the one before or `-`, `old` and `new` with an entity's bytes below, `update FEED ID
    /// OCCURRENCE`, which exchanges them, and `come FEED COUNT` with the bytes of all that come. Answers `paired` and `how-many-paired`,
    /// `bounded FEED BOUND` once for a snapshot, and `low TIMESTAMP MOMENT`, where `-` stands for a header without a timestamp.
    pub fn answer(
        &mut self,
        words: &[String],
        given: &[u8],
        out: &mut Vec<u8>,
    ) -> Result<bool, AllocError> {
        match word(words, 0) {
            "snapshot" => self.start(words)?,
            "old" => self.old.extend_from_slice(given)?,
            "new" => self.new.extend_from_slice(given)?,
            "update" => self.exchange(words)?,
            "come" => self.come(words, given)?,
            "paired" => say(out, keys_text(self.alloc, &self.paired()?)?.as_str())?,
            "how-many-paired" => say_some(self.alloc, out, Some(self.paired()?.as_slice().len()))?,
            "bounded" => self.say_bounded(words, out)?,
            "low" => self.say_low(words, out)?,
            _ => return Ok(false),
        }
        Ok(true)
    }
}

//! Asks of an index of entities.
ghost use Rattle.std.specs.Prelude.{◌≡◌};

use crate::coming::{coming, standings};
use crate::keys::{key_of, key_text, keys_text};
use cases::{number, say, word};
use entity_index::{Changes, EntityIndex, Parts, fresh_are_there};
use feed_stream::{Kept, Splitter};
use feed_values::Items;
use history_rules::Peaks;
use rt_outside::Steps;
use rule_table::EntityKey;
use standing_walks::Standing;
use std::alloc::{AllocError, Global};
use std::marker::Brand;
use std::sync::ledger::{Blank, Ledger};
use timetable::Timetable;
use vehicle_peaks::Rises;

/// An index, which is empty as a case begins. It is boxed, so that each way out of a function here drops one box.
#[derive(Drop)]
pub struct IndexAsks {
    alloc: Global,
    index: Option<Box<EntityIndex>>,
}

fn kept_of(alloc: Global, given: &[u8]) -> Result<Option<Kept>, AllocError> {
    match Splitter::new(alloc).feed(given)?.finish() {
        Ok(kept) => Ok(Some(kept)),
        Err(_) => Ok(None),
    }
}

// The index after a snapshot of a feed, with what that changed. What is found at what comes in stands since a number.
fn taken<L: Ledger>(
    alloc: Global,
    index: Box<EntityIndex>,
    feed: u8,
    kept: Kept,
    since: u64,
    blank: Blank,
) -> Result<(Box<EntityIndex>, Changes), AllocError>
    requires name { blank.name ≡ L.name }
    requires parts { blank.parts ≡ L.parts }
    requires one { blank.parts ≡ 1 }
{
    let mut steps: Steps<L> = Steps::new(blank);
    let table = Timetable::absent(alloc);
    let changes = index.changes(alloc, feed, &kept)?;
    fresh_are_there();
    let came = coming(alloc, &table, feed, &kept, &changes, since, &mut steps)?;
    let next = Box::into_inner(index).replace_feed(feed, kept, came)?;
    Ok((Box::new(alloc, next)?, changes))
}

// What the rules within one message find at what is held under a key, since a number.
fn found_anew<L: Ledger>(
    alloc: Global,
    index: &EntityIndex,
    key: &EntityKey,
    since: u64,
    blank: Blank,
) -> Result<Items<Standing>, AllocError>
    requires name { blank.name ≡ L.name }
    requires parts { blank.parts ≡ L.parts }
    requires one { blank.parts ≡ 1 }
{
    let mut steps: Steps<L> = Steps::new(blank);
    let table = Timetable::absent(alloc);
    match index.entity_of(key) {
        Some(entity) => standings(alloc, &table, key, entity, since, &mut steps),
        None => Ok(Items::new(alloc)),
    }
}

fn places_text(alloc: Global, places: &[u32]) -> Result<String, AllocError> {
    let mut text = String::new(alloc);
    for place in places {
        let one = format!(in alloc; "{place} ")?;
        text.push_str(one.as_str())?;
    }
    Ok(text)
}

fn say_changes(alloc: Global, changes: &Changes, out: &mut Vec<u8>) -> Result<(), AllocError> {
    let places = places_text(alloc, changes.fresh.as_slice())?;
    let keys = keys_text(alloc, &changes.keys)?;
    say(out, format!(in alloc; "fresh {places}{keys}")?.as_str())?;
    let gone = keys_text(alloc, &changes.gone)?;
    say(out, format!(in alloc; "gone {gone}")?.as_str())?;
    let order = if changes.reordered { "other" } else { "same" };
    say(out, order)
}

fn list_text(alloc: Global, list: &[Standing]) -> Result<String, AllocError> {
    let mut text = String::new(alloc);
    for standing in list {
        let rule = standing.finding().rule().name();
        let one = format!(in alloc; " {rule} {}", standing.since())?;
        text.push_str(one.as_str())?;
    }
    Ok(text)
}

fn say_parts(
    alloc: Global,
    key: &EntityKey,
    parts: &Parts,
    out: &mut Vec<u8>,
) -> Result<(), AllocError> {
    let mut text = key_text(alloc, key)?;
    for part in 0..4u8 {
        text.push_str(" |")?;
        let list = list_text(alloc, parts.get(part).as_slice())?;
        text.push_str(list.as_str())?;
    }
    say(out, text.as_str())
}

impl IndexAsks {
    pub fn new(alloc: Global) -> IndexAsks {
        IndexAsks { alloc, index: None }
    }

    pub fn begin(&mut self) {
        self.index = None;
    }

    // The index is taken out.
    fn index(&mut self) -> Result<Box<EntityIndex>, AllocError> {
        match self.index.take() {
            Some(index) => Ok(index),
            None => Ok(Box::new(self.alloc, EntityIndex::new(self.alloc))?),
        }
    }

    fn take_in(
        &mut self,
        words: &[String],
        given: &[u8],
        out: &mut Vec<u8>,
    ) -> Result<(), AllocError> {
        let Some(kept) = kept_of(self.alloc, given)? else {
            return say(out, "refused");
        };
        let feed = word(words, 1).parse().unwrap_or(0);
        let index = self.index()?;
        let (index, changes) = taken::<Brand>(
            self.alloc,
            index,
            feed,
            kept,
            number(words, 2),
            Blank::new(1),
        )?;
        self.index = Some(index);
        say_changes(self.alloc, &changes, out)
    }

    // Puts in a list, what is found anew, under `set FEED ID OCCURRENCE PART SINCE`. A part past 3 is 3.
    fn set(&mut self, words: &[String]) -> Result<(), AllocError> {
        let feed = word(words, 1).parse().unwrap_or(0);
        let occurrence = word(words, 3).parse().unwrap_or(0);
        let key = key_of(self.alloc, feed, word(words, 2), occurrence)?;
        let part: u8 = word(words, 4).parse().unwrap_or(0);
        let mut index = self.index()?;
        let list = found_anew::<Brand>(self.alloc, &index, &key, number(words, 5), Blank::new(1))?;
        index.set_part(&key, part.min(3), list);
        self.index = Some(index);
        Ok(())
    }

    fn say_held(&mut self, words: &[String], out: &mut Vec<u8>) -> Result<(), AllocError> {
        let feed = word(words, 1).parse().unwrap_or(0);
        let index = self.index()?;
        let mut are_none = true;
        for (key, parts) in index.parts(feed) {
            are_none = false;
            say_parts(self.alloc, key, parts, out)?;
        }
        self.index = Some(index);
        if are_none {
            return say(out, "none");
        }
        Ok(())
    }

    /// The vehicles whose peak the snapshot of a feed raises, and the keys of the entities that give one, but for some.
    pub fn rises(
        &mut self,
        peaks: &Peaks,
        feed: u8,
        gone: &[EntityKey],
    ) -> Result<(Rises, Items<EntityKey>), AllocError> {
        let index = self.index()?;
        let rises = Rises::of(self.alloc, peaks, &index, feed)?;
        let keys = rises.keys(self.alloc, &index, feed, gone, &[])?;
        self.index = Some(index);
        Ok((rises, keys))
    }

    /// Takes `take FEED SINCE` with a snapshot's bytes below, and answers what that changed: the places and keys of what is new or other,
    /// the keys of what is gone, and whether the order is the same. `set FEED ID OCCURRENCE PART SINCE` puts what is found at an entity into one
    /// of its lists, and `held FEED` answers what is held, with the rules in its four lists and since when they stand.
    pub fn answer(
        &mut self,
        words: &[String],
        given: &[u8],
        out: &mut Vec<u8>,
    ) -> Result<bool, AllocError> {
        match word(words, 0) {
            "take" => self.take_in(words, given, out)?,
            "set" => self.set(words)?,
            "held" => self.say_held(words, out)?,
            _ => return Ok(false),
        }
        Ok(true)
    }
}

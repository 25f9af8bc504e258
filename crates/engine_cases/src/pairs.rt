//! Asks of an index of pairing rows.

use crate::keys::{key_text, keys_text};
use cases::{say, word, word_list};
use feed_values::Text;
use pairing_rules::{PairIndex, PairRow};
use rule_table::{EntityId, Kind, PairView};
use std::alloc::{AllocError, Global};
use std::mem;

/// Rows with names, of which those before the first case stay, and an index, which is empty as a case begins.
#[derive(Drop)]
pub struct PairAsks {
    alloc: Global,
    rows: Vec<String>,
    kept: Option<usize>,
    index: PairIndex,
}

fn given(alloc: Global, id: &str) -> Result<Option<Text>, AllocError> {
    if id == "-" {
        return Ok(None);
    }
    Ok(Some(Text::of(alloc, id)?))
}

fn kind_of(word: &str) -> Kind {
    match word {
        "update" => Kind::TripUpdate,
        _ => Kind::Vehicle,
    }
}

// The row of `row NAME KIND FEED ID OCCURRENCE TRIP VEHICLE`.
fn row_of(alloc: Global, words: &[String]) -> Result<PairRow, AllocError> {
    Ok(PairRow {
        kind: kind_of(word(words, 2)),
        feed: word(words, 3).parse().unwrap_or(0),
        id: EntityId::of(alloc, word(words, 4))?,
        occurrence: word(words, 5).parse().unwrap_or(0),
        trip: given(alloc, word(words, 6))?,
        vehicle: given(alloc, word(words, 7))?,
    })
}

fn yes_or_no(holds: bool) -> &'static str {
    if holds { "yes" } else { "no" }
}

impl PairAsks {
    pub fn new(alloc: Global) -> PairAsks {
        PairAsks {
            alloc,
            rows: Vec::new(alloc),
            kept: None,
            index: PairIndex::new(alloc),
        }
    }

    pub fn begin(&mut self) {
        match self.kept {
            Some(kept) => self.rows.truncate(kept),
            None => self.kept = Some(self.rows.len()),
        }
        self.index = PairIndex::new(self.alloc);
    }

    fn named(&self, name: &str) -> Result<Option<PairRow>, AllocError> {
        for row in &self.rows {
            let words = word_list(self.alloc, row.as_str())?;
            if word(&words, 1) == name {
                return Ok(Some(row_of(self.alloc, &words)?));
            }
        }
        Ok(None)
    }

    fn put(&mut self, words: &[String], out: &mut Vec<u8>) -> Result<(), AllocError> {
        for name in words.iter().skip(1) {
            match self.named(name.as_str())? {
                Some(row) => {
                    let index = mem::replace(&mut self.index, PairIndex::new(self.alloc));
                    self.index = index.add(row)?;
                }
                None => say(out, "no such row")?,
            }
        }
        Ok(())
    }

    fn take(&mut self, words: &[String], out: &mut Vec<u8>) -> Result<(), AllocError> {
        for name in words.iter().skip(1) {
            match self.named(name.as_str())? {
                Some(row) => self.index.take_out(&row),
                None => say(out, "no such row")?,
            }
        }
        Ok(())
    }

    fn whether(&self, words: &[String]) -> Option<bool> {
        let kind = kind_of(word(words, 1));
        let id = word(words, 2);
        match word(words, 0) {
            "has-trip" => Some(self.index.has_trip(kind, id)),
            "has-vehicle" => Some(self.index.has_vehicle(kind, id)),
            "has-pair" => Some(self.index.has_pair(kind, id, word(words, 3))),
            "any-row" => Some(self.index.any_row(kind)),
            _ => None,
        }
    }

    fn first_key_text(&self, words: &[String]) -> Result<String, AllocError> {
        let feed = word(words, 1).parse().unwrap_or(0);
        match self.index.first_key(feed, word(words, 2)) {
            Some(key) => key_text(self.alloc, key),
            None => String::from_str(self.alloc, "none"),
        }
    }

    fn naming_text(&self, name: &str) -> Result<String, AllocError> {
        match self.named(name)? {
            Some(row) => keys_text(self.alloc, &self.index.naming(self.alloc, &row)?),
            None => String::from_str(self.alloc, "no such row"),
        }
    }

    // The answer to an ask of the index.
    fn text(&self, words: &[String]) -> Result<Option<String>, AllocError> {
        if let Some(holds) = self.whether(words) {
            return Ok(Some(String::from_str(self.alloc, yes_or_no(holds))?));
        }
        let id = word(words, 2);
        match word(words, 0) {
            "first-vehicle" => {
                let vehicle = self.index.first_vehicle(kind_of(word(words, 1)), id);
                Ok(Some(String::from_str(self.alloc, vehicle.unwrap_or("none"))?))
            }
            "first-key" => Ok(Some(self.first_key_text(words)?)),
            "naming" => Ok(Some(self.naming_text(word(words, 1))?)),
            _ => Ok(None),
        }
    }

    // The answers to asks one after the other, in one line.
    fn say_told(&self, given: &[u8], out: &mut Vec<u8>) -> Result<(), AllocError> {
        let Ok(asks) = str::from_utf8(given) else {
            return say(out, "no such asks");
        };
        let mut told = String::new(self.alloc);
        for ask in asks.lines() {
            if !told.is_empty() {
                told.push_str(", ")?;
            }
            match self.text(&word_list(self.alloc, ask)?)? {
                Some(text) => told.push_str(text.as_str())?,
                None => told.push_str("no such ask")?,
            }
        }
        say(out, told.as_str())
    }

    fn say_text(&self, words: &[String], out: &mut Vec<u8>) -> Result<bool, AllocError> {
        match self.text(words)? {
            Some(text) => {
                say(out, text.as_str())?;
                Ok(true)
            }
            None => Ok(false),
        }
    }

    /// Takes `row NAME KIND FEED ID OCCURRENCE TRIP VEHICLE`, where `-` stands for an id that isn't given, `put NAME ..` and
    /// `take NAME ..`. Answers `first-vehicle KIND TRIP`, `first-key FEED VEHICLE`, `has-trip KIND TRIP`, `has-vehicle KIND VEHICLE`,
    /// `has-pair KIND TRIP VEHICLE`, `any-row KIND` and `naming NAME`; and `told` the asks below. `order NAME ..` is `put` and `told`
    /// of an empty index. A KIND is `update` or `vehicle`.
    pub fn answer(
        &mut self,
        ask: &str,
        words: &[String],
        given: &[u8],
        out: &mut Vec<u8>,
    ) -> Result<bool, AllocError> {
        match word(words, 0) {
            "row" => self.rows.push(String::from_str(self.alloc, ask)?)?,
            "put" => self.put(words, out)?,
            "take" => self.take(words, out)?,
            "told" => self.say_told(given, out)?,
            "order" => {
                self.index = PairIndex::new(self.alloc);
                self.put(words, out)?;
                self.say_told(given, out)?
            }
            _ => return self.say_text(words, out),
        }
        Ok(true)
    }
}

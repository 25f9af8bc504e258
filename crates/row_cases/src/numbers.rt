//! The asks of the numbers that pairing rows' ids have.

use cases::{say_some, size, word};
use feed_values::Text;
use pairing_rules::{PairIndex, PairRow};
use rule_table::{EntityId, Kind};
use std::alloc::{AllocError, Global};
use std::mem;

/// An index without rows as a case begins, and how many rows were put in since.
#[derive(Drop)]
pub struct NumberAsks {
    alloc: Global,
    index: PairIndex,
    count: u32,
}

// A text of a letter, with a number where it is asked for.
fn text(alloc: Global, letter: &str, number: u32, is_asked: bool) -> Result<Text, AllocError> {
    let mut text = Text::new(alloc);
    text.push(letter)?;
    if is_asked {
        let digits = format!(in alloc; "{number}")?;
        text.push(digits.as_str())?;
    }
    Ok(text)
}

// A row that none is like, and whose ids of one sort none has.
fn row(alloc: Global, sort: &str, number: u32) -> Result<PairRow, AllocError> {
    let id = text(alloc, "e", number, sort == "ids")?;
    let trip = text(alloc, "t", number, sort == "trips")?;
    let vehicle = text(alloc, "v", number, sort == "vehicles")?;
    Ok(PairRow {
        kind: Kind::Vehicle,
        feed: 0,
        id: EntityId::of(alloc, id.as_str())?,
        occurrence: number,
        trip: Some(trip),
        vehicle: Some(vehicle),
    })
}

impl NumberAsks {
    pub fn new(alloc: Global) -> NumberAsks {
        NumberAsks {
            alloc,
            index: PairIndex::new(alloc),
            count: 0,
        }
    }

    pub fn begin(&mut self) {
        self.index = PairIndex::new(self.alloc);
        self.count = 0;
    }

    // Puts in as many rows as are asked for, each taken out before the next one where they don't stay.
    fn put(&mut self, words: &[String], stay: bool) -> Result<(), AllocError> {
        let sort = word(words, 2);
        for _ in 0..size(words, 1) {
            let index = mem::replace(&mut self.index, PairIndex::new(self.alloc));
            self.index = index.add(row(self.alloc, sort, self.count)?)?;
            if !stay {
                self.index.take_out(&row(self.alloc, sort, self.count)?);
            }
            self.count = self.count.wrapping_add(1);
        }
        Ok(())
    }

    /// Takes `stay COUNT SORT` and `pass COUNT SORT`, rows that are put in and those that are taken out at once, whose ids of a sort, `ids`, `trips`
    /// or `vehicles`, never came before. Answers `numbers`, of how many ids of one sort there are numbers.
    pub fn answer(&mut self, words: &[String], out: &mut Vec<u8>) -> Result<bool, AllocError> {
        match word(words, 0) {
            "stay" => self.put(words, true)?,
            "pass" => self.put(words, false)?,
            "numbers" => say_some(self.alloc, out, Some(self.index.number_count()))?,
            _ => return Ok(false),
        }
        Ok(true)
    }
}

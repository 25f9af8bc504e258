//! Asks of a list of findings.

use crate::findings::{finding_of, say_finding};
use cases::{say, size, word};
use rt_report::LineKind;
use rule_table::FindingList;
use std::alloc::{AllocError, Global};
use std::mem;

/// A list of findings, which is empty as a case begins.
#[derive(Drop)]
pub struct Findings {
    alloc: Global,
    list: FindingList,
}

impl Findings {
    pub fn new(alloc: Global) -> Findings {
        Findings {
            alloc,
            list: FindingList::new(alloc),
        }
    }

    pub fn begin(&mut self) {
        self.list = FindingList::new(self.alloc);
    }

    fn push(
        &mut self,
        words: &[String],
        given: &[u8],
        out: &mut Vec<u8>,
    ) -> Result<(), AllocError> {
        match finding_of(self.alloc, words, given)? {
            Some(finding) => self.list.push(finding),
            None => say(out, "no finding"),
        }
    }

    fn say_one(&self, place: usize, out: &mut Vec<u8>) -> Result<(), AllocError> {
        if place >= self.list.len() {
            return say(out, "none");
        }
        let finding = self.list.get(place);
        say_finding(self.alloc, LineKind::Finding, finding, 0, out)
    }

    fn say_count(&self, count: usize, out: &mut Vec<u8>) -> Result<(), AllocError> {
        say(out, format!(in self.alloc; "{count}")?.as_str())
    }

    // How many items the list is made into, of which nothing stays.
    fn say_items(&mut self, out: &mut Vec<u8>) -> Result<(), AllocError> {
        let list = mem::replace(&mut self.list, FindingList::new(self.alloc));
        self.say_count(list.into_items().as_slice().len(), out)
    }

    /// Answers `push RULE at entity|header PATH` with facts below, `count`, `get PLACE` and `items`.
    pub fn answer(
        &mut self,
        words: &[String],
        given: &[u8],
        out: &mut Vec<u8>,
    ) -> Result<bool, AllocError> {
        match word(words, 0) {
            "push" => self.push(words, given, out)?,
            "count" => self.say_count(self.list.len(), out)?,
            "get" => self.say_one(size(words, 1), out)?,
            "items" => self.say_items(out)?,
            _ => return Ok(false),
        }
        Ok(true)
    }
}

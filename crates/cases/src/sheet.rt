//! The asks of a text so far, and what is told of their answers.
ghost use Rattle.std.specs.Prelude.{◌≡◌, ◌≢◌, ◌<◌, OnOk};

use crate::named::Named;
use std::alloc::{AllocError, Global};

/// An ask with what is given to it and what is wanted of it.
#[derive(Drop)]
pub struct Open<'a> {
    pub number: usize,
    pub ask: &'a str,
    pub given: Vec<u8>,
    pub wanted: Vec<u8>,
}

/// The asks of a text so far.
#[derive(Drop)]
pub struct Sheet<'a> {
    pub alloc: Global,
    pub name: &'a str,
    pub case: &'a str,
    pub named: Vec<Named<'a>>,
    pub open: Option<Open<'a>>,
    pub told: String,
    pub cases: u64,
    pub right: u64,
    pub wrong: u64,
}

// Puts bytes behind a text, each line behind a sign; in hex digits where they aren't text.
fn push_lines(
    alloc: Global,
    told: &mut String,
    sign: &str,
    bytes: &[u8],
) -> Result<(), AllocError> {
    let Ok(text) = str::from_utf8(bytes) else {
        let digits = hex::encode(alloc, bytes)?;
        return told.push_str(format!(in alloc; "{sign}+ {digits}\n")?.as_str());
    };
    for line in text.lines() {
        told.push_str(format!(in alloc; "{sign} {line}\n")?.as_str())?;
    }
    if !text.is_empty() && !text.ends_with("\n") {
        told.push_str(format!(in alloc; "{sign} (no end of line)\n")?.as_str())?;
    }
    Ok(())
}

impl<'a> Sheet<'a> {
    /// No asks so far of the text of this name.
    pub fn new(alloc: Global, name: &'a str) -> Sheet<'a> {
        Sheet {
            alloc,
            name,
            case: "",
            named: Vec::new(alloc),
            open: None,
            told: String::new(alloc),
            cases: 0,
            right: 0,
            wrong: 0,
        }
    }

    /// A case of this name begins.
    pub fn begin(&mut self, case: &'a str) {
        self.case = case;
        self.cases = self.cases.saturating_add(1);
    }

    /// Tells that a line is wrong.
    pub fn tell(&mut self, number: usize, why: &str) -> Result<(), AllocError>
        ensures wrong { 0 < self.new.wrong }
        ensures right { self.new.right ≡ self.old.right }
    {
        self.wrong = self.wrong.saturating_add(1);
        let line = format!(in self.alloc; "{}:{number}: {}: {why}\n", self.name, self.case)?;
        self.told.push_str(line.as_str())
    }

    /// Compares an answer with the wanted one, and tells both where they differ. An ask of which nothing is wanted, and that answers
    /// nothing, isn't counted.
    pub fn compare(&mut self, ask: &Open<'_>, answer: &[u8]) -> Result<(), AllocError>
        ensures same { ask.now.wanted.items ≡ answer.now → self.new.wrong ≡ self.old.wrong }
        ensures other { ask.now.wanted.items ≢ answer.now → 0 < self.new.wrong }
        ensures right { ask.now.wanted.items ≢ answer.now → self.new.right ≡ self.old.right }
    {
        if ask.wanted.as_slice() == answer {
            if !answer.is_empty() {
                self.right = self.right.saturating_add(1);
            }
            return Ok(());
        }
        self.tell(ask.number, ask.ask)?;
        push_lines(self.alloc, &mut self.told, "-", &ask.wanted)?;
        push_lines(self.alloc, &mut self.told, "+", answer)
    }
}

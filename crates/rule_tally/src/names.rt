//! Names, each once, with a mark.
ghost use Rattle.std.specs.Prelude.{◌≡◌, [], OnOk, length};
ghost use Rattle.std.specs.List.{count_by};
ghost use Rattle.rule_tally.specs.Names.{is_marked, with_mark};

use std::alloc::{AllocError, Global};
use std::collections::BTreeMap;
use std::marker::Model;

/// Names, each once, with a mark. Contracts see the list of them, in the order of their bytes.
///
/// They are compared and not hashed, so that no names that somebody chose take longer than others.
#[derive(Drop)]
pub struct Names {
    marks: BTreeMap<String, bool>,
}

impl Model for Names {
    ghost use Rattle.rule_tally.specs.Names.{Marks, by_text};

    ghost Value = { Marks };

    ghost view = { λ names. by_text names.marks.entries };
}

impl Names {
    /// No names.
    pub fn new(alloc: Global) -> Names
        ensures { result ≡ [] }
    {
        Names {
            marks: BTreeMap::new(alloc),
        }
    }

    /// Gives a name this mark; one that isn't there comes to its place.
    pub fn mark(&mut self, alloc: Global, name: &str, mark: bool) -> Result<(), AllocError>
        ensures { OnOk result (self.new ≡ with_mark self.old name.now mark) }
    {
        let name = String::from_str(alloc, name)?;
        self.marks.insert(name, mark)?;
        Ok(())
    }

    /// How many names there are.
    pub fn len(&self) -> usize
        ensures { result ≡ length self.now }
    {
        self.marks.len()
    }

    /// How many have the mark.
    pub fn marked(&self) -> usize
        ensures { result ≡ count_by is_marked self.now }
    {
        self.marks.values().filter(|mark| **mark).count()
    }
}

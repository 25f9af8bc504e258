//! Facts.
ghost use Rattle.std.specs.Prelude.{◌≡◌, IfOk, map};
ghost use Rattle.feed_values.specs.Cells.{cell_value};
ghost use Rattle.rule_table.specs.Asked.{fact_value};

use crate::ask::{Ask, AskRef};
use crate::cells::{cell_of, value_of};
use feed_values::{CellRef, CellValue, Items};
use std::alloc::{AllocError, Global};

/// An ask and what was answered.
#[derive(Drop)]
pub struct Fact {
    pub ask: Ask,
    pub value: CellValue,
}

/// The same, borrowed.
#[derive(Clone, Copy)]
pub struct FactRef<'a> {
    pub ask: AskRef<'a>,
    pub cell: CellRef<'a>,
}

impl Fact {
    /// Makes the fact again.
    pub fn clone(&self, alloc: Global) -> Result<Fact, AllocError>
        ensures { IfOk result (λ copy. copy ≡ self.now) }
    {
        self.borrowed().to_fact(alloc)
    }

    /// The fact with its texts borrowed.
    pub fn borrowed(&self) -> FactRef<'_>
        ensures { fact_value result ≡ self.now }
    {
        FactRef {
            ask: self.ask.borrowed(),
            cell: cell_of(&self.value),
        }
    }
}

impl FactRef<'_> {
    /// The fact with texts of its own.
    pub fn to_fact(self, alloc: Global) -> Result<Fact, AllocError>
        ensures { IfOk result (λ fact. fact ≡ fact_value self.entry) }
    {
        let value = value_of(alloc, self.cell)?;
        let ask = self.ask.to_ask(alloc)?;
        Ok(Fact { ask, value })
    }
}

/// Makes a list of facts again.
pub(crate) fn copied_facts(alloc: Global, facts: &[Fact]) -> Result<Items<Fact>, AllocError>
    ensures { IfOk result (λ copy. copy ≡ facts.now) }
{
    let mut copies = Vec::with_capacity(alloc, facts.len())?;
    for fact in facts {
        copies.push(fact.clone(alloc)?)?;
    }
    Ok(Items::from_vec(copies))
}

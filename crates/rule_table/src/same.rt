//! Facts compared.
ghost use Rattle.std.specs.Prelude.{◌≡◌, ◌&&◌};
ghost use Rattle.rule_table.specs.Passed.{same_cell};
ghost use Rattle.rule_table.specs.SameFacts.{same_ask, same_facts};

use crate::cells::cell_of;
use crate::fact::Fact;
use crate::parts::{are_same, parts_of};
use crate::passing::are_same_cells;

/// Whether two facts ask the same and have the same answer.
#[tactic(auto, using(crate::specs::Parts::parts_same))]
fn is_same(first: &Fact, second: &Fact) -> bool
    ensures { result ≡ (same_ask first.now.ask second.now.ask && same_cell first.now.value second.now.value) }
{
    let asks = are_same(
        parts_of(first.ask.borrowed()),
        parts_of(second.ask.borrowed()),
    );
    let cells = are_same_cells(cell_of(&first.value), cell_of(&second.value));
    asks && cells
}

/// Whether two lists have the same facts, in the same order.
pub fn are_same_facts(first: &[Fact], second: &[Fact]) -> bool
    ensures { result ≡ same_facts first.now second.now }
{
    for (i, fact) in first.iter().enumerate() {
        match second.get(i) {
            None => return false,
            Some(other) => {
                if !is_same(fact, other) {
                    return false;
                }
            }
        }
    }
    first.len() == second.len()
}

//! The facts of a row at a place: whether they break the rule, without memory, and then the facts.
ghost use Rattle.std.specs.Prelude.{◌≡◌, ◌≤◌, length, [], IfOk};
ghost use Rattle.feed_values.specs.Cells.{cell_value};
ghost use Rattle.rule_table.specs.Asked.{place_value, fact_value};
ghost use Rattle.rule_table.specs.Cited.{cited, do_break, breaking, broken_from};

use crate::answers::Answers;
use crate::asking::{cell_of, fact_of};
use crate::fact::Fact;
use crate::passing::{test_passes, test_passes_by};
use crate::place::PlaceRef;
use crate::row::{Atom, Cite};
use feed_values::{CellRef, Items};
use std::alloc::{AllocError, Global};

/// Whether the facts of a row at a place are there and pass its test. It takes no memory.
pub(crate) fn is_broken<A: Answers>(
    answers: &A,
    place: PlaceRef<'_>,
    cites: &[Cite],
    atoms: &[Atom],
) -> bool
    requires { length cites.now ≤ 6 }
    ensures { result ≡ do_break (place_value place.entry) atoms.now (cited (A.answers answers.now) (place_value place.entry) [] cites.now) }
{
    is_broken_impl(answers, place, cites, atoms)
}

/// Cites in order, and stops at the first condition that is false.
fn is_broken_impl<A: Answers>(
    answers: &A,
    place: PlaceRef<'_>,
    cites: &[Cite],
    atoms: &[Atom],
) -> bool
    requires { length cites.now ≤ 6 }
    ensures { result ≡ broken_from (A.answers answers.now) (place_value place.entry) atoms.now [] cites.now }
{
    let mut cells = [CellRef::Missing; 6];
    for (k, cite) in cites.iter().enumerate() {
        let Some(cell) = cell_of(answers, place, &cells[..k], *cite) else {
            return false;
        };
        cells[k] = cell;
        if !test_passes_by(place, k, atoms, &cells[..k + 1]) {
            return false;
        }
    }
    test_passes(place, atoms, &cells[..cites.len()])
}

/// The facts of a row at a place, in order, where they pass its test. None where an entry makes no ask, an ask has no answer or
/// the test isn't passed.
pub(crate) fn cite<A: Answers>(
    alloc: Global,
    answers: &A,
    place: PlaceRef<'_>,
    cites: &[Cite],
    atoms: &[Atom],
) -> Result<Option<Items<Fact>>, AllocError>
    requires { length cites.now ≤ 6 }
    ensures { IfOk result (λ facts. facts ≡ breaking (place_value place.entry) atoms.now (cited (A.answers answers.now) (place_value place.entry) [] cites.now)) }
{
    let mut cells = [CellRef::Missing; 6];
    let mut facts = Vec::with_capacity(alloc, cites.len())?;
    for (k, cite) in cites.iter().enumerate() {
        let Some(fact) = fact_of(answers, place, &cells[..k], *cite) else {
            return Ok(None);
        };
        cells[k] = fact.cell;
        facts.push(fact.to_fact(alloc)?)?;
    }
    if !test_passes(place, atoms, &cells[..cites.len()]) {
        return Ok(None);
    }
    Ok(Some(Items::from_vec(facts)))
}

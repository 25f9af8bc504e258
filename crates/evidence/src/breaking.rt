//! The definition `Breaks` as a decision.
ghost use Rattle.std.specs.Prelude.{◌≡◌, ◌↔◌, ◌≤◌, [], IsTrue, Some, length, map};
ghost use Rattle.std.specs.List.{Contains};
ghost use Rattle.feed_values.specs.Cells.{cell_value};
ghost use Rattle.rule_table.specs.Asked.{place_value, slot_of, index_of, ask_at};
ghost use Rattle.rule_table.specs.Rows.{slots_at};
ghost use Rattle.rule_table.specs.Passed.{passes};
ghost use Rattle.rule_table.specs.Cited.{values_of};
ghost use Rattle.rule_table.specs.Broken.{Breaks, IsPlace, IsFormed};
ghost use Rattle.evidence.specs.DoesBreak.{does_break};

use feed_values::{CellRef, Items, Slot};
use rule_table::{
    Ask, Atom, Cite, Fact, Place, PlaceRef, RuleId, ask_of, cell_of, cites_at, first, is_in_range,
    slots_at, test_at, test_passes,
};

/// Whether facts break a rule at a place: the place is one of the rule's, the facts have the asks of its row there, in
/// order, with the keys that the values before them give, each number lies from -2^63 to 2^64 - 1, and the values pass the
/// row's test.
pub fn breaks(rule: RuleId, place: &Place, facts: &Items<Fact>) -> bool
    ensures exact { IsTrue result ↔ Breaks rule place.now facts.now }
    ensures value { result ≡ does_break rule place.now facts.now }
{
    is_broken(rule, place.borrowed(), facts.as_slice())
}

fn is_broken(rule: RuleId, place: PlaceRef<'_>, facts: &[Fact]) -> bool
    ensures { IsTrue result ↔ Breaks rule (place_value place.entry) facts.now }
{
    is_place(rule, place)
        && is_formed(place, cites_at(rule, place), facts)
        && do_pass(place, test_at(rule, place), facts)
}

fn is_listed(slots: &[Slot], slot: Slot) -> bool
    ensures { IsTrue result ↔ Contains slots.now slot }
{
    slots.iter().any(|listed| listed.is_slot(slot))
}

/// Whether a rule has the place.
fn is_place(rule: RuleId, place: PlaceRef<'_>) -> bool
    ensures { IsTrue result ↔ IsPlace rule (place_value place.entry) }
{
    let plain = place.slot().has_index() || place.index() == 0;
    is_listed(slots_at(rule, place), place.slot()) && first(rule) <= place.index() && plain
}

/// Whether an ask is the one that an entry makes at a place.
fn is_asked(place: PlaceRef<'_>, cells: &[CellRef<'_>], cite: Cite, ask: &Ask) -> bool
    ensures { IsTrue result ↔ (ask_at (place_value place.entry) (map cell_value cells.now) cite ≡ Some ask.now) }
{
    match ask_of(place, cells, cite) {
        None => false,
        Some(asked) => asked.is_ask(ask),
    }
}

/// Whether facts have the asks of entries at a place, and values within the bounds of all answers.
fn is_formed(place: PlaceRef<'_>, cites: &[Cite], facts: &[Fact]) -> bool
    requires { length cites.now ≤ 6 }
    ensures formed { IsTrue result ↔ IsFormed (place_value place.entry) [] cites.now facts.now }
    ensures long { IsTrue result → length facts.now ≡ length cites.now }
{
    if cites.len() != facts.len() {
        return false;
    }
    let mut cells = [CellRef::Missing; 6];
    for (k, cite) in cites.iter().enumerate() {
        let cell = cell_of(&facts[k].value);
        if !is_asked(place, &cells[..k], *cite, &facts[k].ask) || !is_in_range(cell) {
            return false;
        }
        cells[k] = cell;
    }
    true
}

/// Whether facts pass a test.
fn do_pass(place: PlaceRef<'_>, atoms: &[Atom], facts: &[Fact]) -> bool
    requires { length facts.now ≤ 6 }
    ensures { result ≡ passes (place_value place.entry) atoms.now (values_of facts.now) }
{
    let mut cells = [CellRef::Missing; 6];
    for (k, fact) in facts.iter().enumerate() {
        cells[k] = cell_of(&fact.value);
    }
    test_passes(place, atoms, &cells[..facts.len()])
}

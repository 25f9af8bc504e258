//! Judging a rule at an entity and on a header.
ghost use Rattle.std.specs.Prelude.{◌≡◌, false, ◌+◌, ◌≤◌, ◌++◌, [], length, slice_get, Some, OnOk};
ghost use Rattle.std.specs.Option.{option_map};
ghost use Rattle.std.specs.List.{Contains};
ghost use Rattle.feed_values.specs.Cells.{has_item, way};
ghost use Rattle.feed_values.specs.Views.{entity_value, trip_update_value, alert_value};
ghost use Rattle.rule_table.specs.Asked.{place_value, slot_of, index_of};
ghost use Rattle.rule_table.specs.declared.place.Place.TheVariants as place;
ghost use Rattle.rule_table.specs.Table.{slots_of, head_slots_of};
ghost use Rattle.rule_table.specs.Rows.{slots_at};
ghost use Rattle.rule_table.specs.ClearSlots.{AllClear};
ghost use Rattle.rule_table.specs.Marked.{marked, marked_at};
ghost use Rattle.rule_table.specs.Judged.{found_at, found_below, found_by, found_all, head_found_by, head_found_all, places_at, updates_in, periods_in, selectors_in};

use crate::answers::Answers;
use crate::asking::path_of;
use crate::citing::{cite, is_broken};
use crate::clear_slots::{ClearSlots, NoneClear};
use crate::finding::Finding;
use crate::finding_list::FindingList;
use crate::key::EntityKey;
use crate::mark::Mark;
use crate::place::PlaceRef;
use crate::rule::RuleId;
use crate::settled::is_settled;
use crate::table::{cites_at, first, head_slots, slots, test_at};
use feed_values::{Alert, Apart, Entity, Path, Slot, TripUpdate};
use rt_outside::Steps;
use std::alloc::{AllocError, Global};
use std::sync::ledger::Ledger;

fn updates(held: &Option<Apart<TripUpdate>>) -> usize
    ensures { result ≡ updates_in (option_map trip_update_value held.now) }
{
    match held {
        None => 0,
        Some(update) => update.stop_time_update.as_slice().len(),
    }
}

fn periods(held: &Option<Apart<Alert>>) -> usize
    ensures { result ≡ periods_in (option_map alert_value held.now) }
{
    match held {
        None => 0,
        Some(alert) => alert.active_period.as_slice().len(),
    }
}

fn selectors(held: &Option<Apart<Alert>>) -> usize
    ensures { result ≡ selectors_in (option_map alert_value held.now) }
{
    match held {
        None => 0,
        Some(alert) => alert.informed_entity.as_slice().len(),
    }
}

/// How many places an entity has at a slot.
fn places(entity: &Entity, slot: Slot) -> usize
    ensures { result ≡ places_at (entity_value entity.now) slot }
{
    match slot {
        Slot::UPDATE_STOP
        | Slot::UPDATE_STOP_SEQUENCE
        | Slot::UPDATE_STOP_ID
        | Slot::UPDATE_STOP_RELATIONSHIP
        | Slot::UPDATE_ARRIVAL
        | Slot::UPDATE_ARRIVAL_DELAY
        | Slot::UPDATE_ARRIVAL_TIME
        | Slot::UPDATE_DEPARTURE
        | Slot::UPDATE_DEPARTURE_DELAY
        | Slot::UPDATE_DEPARTURE_TIME
        | Slot::UPDATE_ASSIGNED_STOP_ID => updates(&entity.trip_update),
        Slot::ALERT_START | Slot::ALERT_END => periods(&entity.alert),
        Slot::ALERT_SELECTOR
        | Slot::ALERT_AGENCY_ID
        | Slot::ALERT_ROUTE_ID
        | Slot::ALERT_ROUTE_TYPE
        | Slot::ALERT_TRIP
        | Slot::ALERT_TRIP_ID
        | Slot::ALERT_START_TIME
        | Slot::ALERT_START_DATE
        | Slot::ALERT_TRIP_RELATIONSHIP
        | Slot::ALERT_TRIP_ROUTE_ID
        | Slot::ALERT_DIRECTION_ID
        | Slot::ALERT_STOP_ID => selectors(&entity.alert),
        _ => 1,
    }
}

/// Judges a rule at one place.
fn judge_place<A: Answers>(
    alloc: Global,
    answers: &A,
    rule: RuleId,
    place: PlaceRef<'_>,
    out: &mut FindingList,
) -> Result<(), AllocError>
    requires listed { Contains (slots_at rule (place_value place)) (slot_of (place_value place)) }
    requires plain { has_item (way (slot_of (place_value place))) ≡ false → index_of (place_value place) ≡ 0 }
    ensures { OnOk result (out.new ≡ out.old ++ found_at rule (A.answers answers.now) (place_value place.entry)) }
{
    if place.index() < first(rule) {
        return Ok(());
    }
    let cites = cites_at(rule, place);
    let Some(facts) = cite(alloc, answers, place, cites, test_at(rule, place))? else {
        return Ok(());
    };
    let place = place.to_place()?;
    out.push(Finding::new(rule, place, facts))
}

/// Appends the findings of a mark: one where its rule breaks at its place, and else none.
pub fn judge_mark<A: Answers>(
    alloc: Global,
    answers: &A,
    key: &EntityKey,
    mark: Mark,
    out: &mut FindingList,
) -> Result<(), AllocError>
    ensures { OnOk result (out.new ≡ out.old ++ marked_at (A.answers answers.now) key.now mark) }
{
    let Some(slot) = slots(mark.rule).get(mark.number) else {
        return Ok(());
    };
    let path = path_of(*slot, mark.index);
    judge_place(alloc, answers, mark.rule, PlaceRef::Entity(key, path), out)
}

/// Appends the findings of marks, one after the other.
fn judge_marks<A: Answers>(
    alloc: Global,
    answers: &A,
    key: &EntityKey,
    marks: &[Mark],
    out: &mut FindingList,
) -> Result<(), AllocError>
    ensures { OnOk result (out.new ≡ out.old ++ marked (A.answers answers.now) key.now marks.now) }
{
    for mark in marks {
        judge_mark(alloc, answers, key, *mark, out)?;
    }
    Ok(())
}

/// Whether a rule breaks at a path of an entity. What stands there may settle that it doesn't.
fn breaks_at<A: Answers>(answers: &A, rule: RuleId, key: &EntityKey, path: Path) -> bool
    ensures { result ≡ false → found_at rule (A.answers answers.now) (place.Entity key.now path) ≡ [] }
{
    if path.index < first(rule) || is_settled(answers, rule, path) {
        return false;
    }
    let place = PlaceRef::Entity(key, path);
    is_broken(answers, place, cites_at(rule, place), test_at(rule, place))
}

/// Marks a rule at one index of a slot, if it breaks there.
fn mark_index<A: Answers>(
    answers: &A,
    rule: RuleId,
    key: &EntityKey,
    number: usize,
    slot: Slot,
    index: u32,
    out: &mut Vec<Mark>,
) -> Result<(), AllocError>
    requires listed { slice_get (slots_of rule) number ≡ Some slot }
    requires plain { has_item (way slot) ≡ false → index ≡ 0 }
    ensures { OnOk result (marked (A.answers answers.now) key.now out.new.items ≡ marked (A.answers answers.now) key.now out.old.items ++ found_at rule (A.answers answers.now) (place.Entity key.now (record { slot = slot; index = index }))) }
{
    if breaks_at(answers, rule, key, Path { slot, index }) {
        out.push(Mark {
            rule,
            number,
            index,
        })?;
    }
    Ok(())
}

/// Marks a rule at one of its slots of an entity, unless it is clear that it breaks nowhere there.
fn mark_slot<A: Answers, C: ClearSlots>(
    answers: &A,
    clear: &C,
    rule: RuleId,
    key: &EntityKey,
    entity: &Entity,
    number: usize,
    slot: Slot,
    out: &mut Vec<Mark>,
) -> Result<(), AllocError>
    requires listed { slice_get (slots_of rule) number ≡ Some slot }
    requires clear { AllClear (A.answers answers.now) key.now (entity_value entity.now) (C.pairs clear.now) }
    ensures { OnOk result (marked (A.answers answers.now) key.now out.new.items ≡ marked (A.answers answers.now) key.now out.old.items ++ found_below rule (A.answers answers.now) key.now slot (places_at (entity_value entity.now) slot)) }
{
    if clear.has(rule, slot) {
        return Ok(());
    }
    let places = places(entity, slot);
    if places > 4294967295 {
        return Err(AllocError);
    }
    let places = places as u32;
    for index in 0..places {
        mark_index(answers, rule, key, number, slot, index, out)?;
    }
    Ok(())
}

/// Marks where a rule breaks at an entity, by slot and index.
///
/// Where a list of the entity has 2^32 items or more, which no path can name, it answers want of memory.
fn mark_rule<A: Answers, C: ClearSlots>(
    answers: &A,
    clear: &C,
    rule: RuleId,
    key: &EntityKey,
    entity: &Entity,
    out: &mut Vec<Mark>,
) -> Result<(), AllocError>
    requires { AllClear (A.answers answers.now) key.now (entity_value entity.now) (C.pairs clear.now) }
    ensures { OnOk result (marked (A.answers answers.now) key.now out.new.items ≡ marked (A.answers answers.now) key.now out.old.items ++ found_by rule (A.answers answers.now) key.now (entity_value entity.now)) }
{
    for (number, slot) in slots(rule).iter().enumerate() {
        mark_slot(answers, clear, rule, key, entity, number, *slot, out)?;
    }
    Ok(())
}

/// Marks where some rules break at an entity, one rule after the other and each by slot and index, and ticks once for each
/// rule. A rule isn't judged at a slot at which it is known to be clear. Where a list of the entity has 2^32 items or more,
/// which no path can name, it answers want of memory.
pub fn mark_rules<A: Answers, C: ClearSlots, L: Ledger>(
    answers: &A,
    clear: &C,
    rules: &[RuleId],
    key: &EntityKey,
    entity: &Entity,
    out: &mut Vec<Mark>,
    steps: &mut Steps<L>,
) -> Result<(), AllocError>
    requires { AllClear (A.answers answers.now) key.now (entity_value entity.now) (C.pairs clear.now) }
    ensures found { OnOk result (marked (A.answers answers.now) key.now out.new.items ≡ marked (A.answers answers.now) key.now out.old.items ++ found_all rules.now (A.answers answers.now) key.now (entity_value entity.now)) }
    ensures ticked { OnOk result (steps.new ≡ steps.old + length rules.now) }
    ensures most { steps.new ≤ steps.old + length rules.now }
{
    for rule in rules {
        steps.tick();
        mark_rule(answers, clear, *rule, key, entity, out)?;
    }
    Ok(())
}

/// Judges a rule at one slot of a header.
fn judge_head_slot<A: Answers>(
    alloc: Global,
    answers: &A,
    rule: RuleId,
    feed: u8,
    slot: Slot,
    out: &mut FindingList,
) -> Result<(), AllocError>
    requires listed { Contains (head_slots_of rule) slot }
    ensures { OnOk result (out.new ≡ out.old ++ found_at rule (A.answers answers.now) (place.Head feed slot)) }
{
    judge_place(alloc, answers, rule, PlaceRef::Head(feed, slot), out)
}

/// Appends the findings of a rule on the header of a feed, by slot.
pub fn judge_head<A: Answers>(
    alloc: Global,
    answers: &A,
    rule: RuleId,
    feed: u8,
    out: &mut FindingList,
) -> Result<(), AllocError>
    ensures { OnOk result (out.new ≡ out.old ++ head_found_by rule (A.answers answers.now) feed) }
{
    for slot in head_slots(rule) {
        judge_head_slot(alloc, answers, rule, feed, *slot, out)?;
    }
    Ok(())
}

/// Appends the findings of some rules at an entity, one rule after the other and those of one rule by slot and index, and
/// ticks once for each rule, before it is judged. Where a list of the entity has 2^32 items or more, which no path can name,
/// it answers want of memory.
pub fn judge_rules<A: Answers, L: Ledger>(
    alloc: Global,
    answers: &A,
    rules: &[RuleId],
    key: &EntityKey,
    entity: &Entity,
    out: &mut FindingList,
    steps: &mut Steps<L>,
) -> Result<(), AllocError>
    ensures found { OnOk result (out.new ≡ out.old ++ found_all rules.now (A.answers answers.now) key.now (entity_value entity.now)) }
    ensures ticked { OnOk result (steps.new ≡ steps.old + length rules.now) }
    ensures most { steps.new ≤ steps.old + length rules.now }
{
    judge_unclear(alloc, answers, &NoneClear, rules, key, entity, out, steps)
}

/// The same, but a rule isn't judged at a slot at which it is known to be clear.
pub fn judge_unclear<A: Answers, C: ClearSlots, L: Ledger>(
    alloc: Global,
    answers: &A,
    clear: &C,
    rules: &[RuleId],
    key: &EntityKey,
    entity: &Entity,
    out: &mut FindingList,
    steps: &mut Steps<L>,
) -> Result<(), AllocError>
    requires { AllClear (A.answers answers.now) key.now (entity_value entity.now) (C.pairs clear.now) }
    ensures found { OnOk result (out.new ≡ out.old ++ found_all rules.now (A.answers answers.now) key.now (entity_value entity.now)) }
    ensures ticked { OnOk result (steps.new ≡ steps.old + length rules.now) }
    ensures most { steps.new ≤ steps.old + length rules.now }
{
    let mut marks = Vec::new(alloc);
    mark_rules(answers, clear, rules, key, entity, &mut marks, steps)?;
    judge_marks(alloc, answers, key, &marks, out)
}

/// Appends the findings of some rules on the header of a feed, one rule after the other and those of one rule by slot, and
/// ticks once for each rule, before it is judged.
pub fn judge_heads<A: Answers, L: Ledger>(
    alloc: Global,
    answers: &A,
    rules: &[RuleId],
    feed: u8,
    out: &mut FindingList,
    steps: &mut Steps<L>,
) -> Result<(), AllocError>
    ensures found { OnOk result (out.new ≡ out.old ++ head_found_all rules.now (A.answers answers.now) feed) }
    ensures ticked { OnOk result (steps.new ≡ steps.old + length rules.now) }
    ensures most { steps.new ≤ steps.old + length rules.now }
{
    for rule in rules {
        steps.tick();
        judge_head(alloc, answers, *rule, feed, out)?;
    }
    Ok(())
}

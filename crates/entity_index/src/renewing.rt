//! A snapshot is taken in.
ghost use Rattle.std.specs.Prelude.{◌≡◌, ◌<◌, ◌+◌, ℕ, true, false, bytes_eq, Bool, List, [], Some, None, IfOk, OnOk, map, not, unwrap_or, if◌then◌else◌};
ghost use Rattle.std.specs.Cmp.Lexicographic.{pointwise};
ghost use Rattle.feed_values.specs.Snapshot.{entity_payloads};
ghost use Rattle.rule_table.specs.declared.key.EntityKey.{EntityKey as Key};
ghost use Rattle.rule_table.specs.Order.{same_key};
ghost use Rattle.rule_table.specs.Counts.{count_in};
ghost use Rattle.rule_history.specs.History.{id_of};
ghost use Rattle.entity_index.specs.Held.{nothing, at_key, parts_at};
ghost use Rattle.entity_index.specs.Lists.{no_lists};
ghost use Rattle.entity_index.specs.Changes.{AreIncoming, changed_under, replaced, set_at};
ghost use Rattle.entity_index.specs.Rooms.{in_room};
ghost use Rattle.entity_index.specs.Seats.{AreSeated, occurrences_after, parts_in, placed_after, places_of};
ghost use Rattle.entity_index.specs.Put.{AreUnseated, put_all, put_one, seat_all, seat_first, seat_one, staying};
ghost use Rattle.entity_index.specs.Tally.{IsTally, came_then, phase_at};

use crate::incoming::Incoming;
use crate::keys::{first_key, have_same_ids, next_occurrence, none_counted};
use crate::parts::Parts;
use crate::room::{Room, Seat};
use feed_stream::Kept;
use feed_values::Items;
use rule_table::EntityKey;
use standing_walks::Standing;
use std::alloc::{AllocError, Global};
use std::collections::BTreeMap;

fn boxed<T: Drop>(alloc: Global, item: T) -> Result<Box<T>, AllocError>
    ensures { IfOk result (λ b. b.value ≡ item) }
{
    Ok(Box::new(alloc, item)?)
}

/// Puts a value in under a key. Of any type, since what a seat gives up costs the check most.
fn put_under<V: Drop>(
    entries: &mut BTreeMap<EntityKey, V>,
    key: EntityKey,
    value: V,
) -> Result<(), AllocError>
    ensures { OnOk result ((k : Key) → at_key k entries.new.entries ≡ (if same_key key k then Some value else at_key k entries.old.entries)) }
{
    entries.insert(key, value)?;
    Ok(())
}

/// Puts an entity that came in the place of the one under its key, or where none is there puts it in.
fn put_one(
    alloc: Global,
    entries: &mut BTreeMap<EntityKey, Seat>,
    phase: bool,
    came: Incoming,
) -> Result<(), AllocError>
    ensures { OnOk result ((key : Key) → at_key key entries.new.entries ≡ put_one phase came (λ k. at_key k entries.old.entries) key) }
{
    let Incoming { key, entity, parts } = came;
    let entity = boxed(alloc, entity)?;
    match entries.get_mut(&key) {
        Some(seat) => {
            seat.renew(entity, parts);
            Ok(())
        }
        None => put_under(entries, key, Seat::new(phase, entity, parts)),
    }
}

fn put_all(
    alloc: Global,
    entries: &mut BTreeMap<EntityKey, Seat>,
    phase: bool,
    incoming: Items<Incoming>,
) -> Result<(), AllocError>
    ensures { OnOk result ((key : Key) → at_key key entries.new.entries ≡ put_all phase incoming (λ k. at_key k entries.old.entries) key) }
{
    for came in incoming.into_vec() {
        put_one(alloc, entries, phase, came)?;
    }
    Ok(())
}

fn seat_one(entries: &mut BTreeMap<EntityKey, Seat>, key: &EntityKey, place: usize, phase: bool)
    ensures { (k : Key) → at_key k entries.new.entries ≡ seat_one phase (key.now, place) (λ q. at_key q entries.old.entries) k }
{
    match entries.get_mut(key) {
        Some(seat) => seat.seat_at(place, phase),
        None => {}
    }
}

/// Seats what is under a key, unless it was seated in this phase; answers whether it was, if anything is there.
fn seat_first(
    entries: &mut BTreeMap<EntityKey, Seat>,
    key: &EntityKey,
    place: usize,
    phase: bool,
) -> Option<bool>
    ensures came { result ≡ phase_at phase (at_key key.now entries.old.entries) }
    ensures seats { (k : Key) → at_key k entries.new.entries ≡ seat_first phase (key.now, place) (λ q. at_key q entries.old.entries) k }
{
    match entries.get_mut(key) {
        None => None,
        Some(seat) => {
            let came = seat.phase() == phase;
            if !came {
                seat.seat_at(place, phase);
            }
            Some(came)
        }
    }
}

/// Seats an entity, whose key is given as that of the first one of its id, and tells how many with the same id stand before it. The key is of no
/// further use.
fn seat_next(
    alloc: Global,
    entries: &mut BTreeMap<EntityKey, Seat>,
    first: &mut EntityKey,
    place: usize,
    phase: bool,
    counts: &mut BTreeMap<String, u32>,
) -> Result<u32, AllocError>
    requires { first.old.occurrence ≡ 0 }
    ensures occurrence { IfOk result (λ k. (n : ℕ) → IsTally (phase_at phase (at_key first.old entries.old.entries)) n (count_in counts.old first.old.id) → k ≡ n) }
    ensures seats { OnOk result ((n : ℕ) → IsTally (phase_at phase (at_key first.old entries.old.entries)) n (count_in counts.old first.old.id) →
        (k : Key) → at_key k entries.new.entries ≡ seat_one phase (record first.old { occurrence = n }, place) (λ q. at_key q entries.old.entries) k) }
    ensures here { OnOk result ((n : ℕ) → IsTally (phase_at phase (at_key first.old entries.old.entries)) n (count_in counts.old first.old.id) →
        IsTally (came_then (phase_at phase (at_key first.old entries.old.entries))) (n + 1) (count_in counts.new first.old.id)) }
    ensures others { OnOk result ((other : List ℕ) → bytes_eq first.old.id other ≡ false → count_in counts.new other ≡ count_in counts.old other) }
{
    let came = seat_first(entries, first, place, phase);
    let occurrence = next_occurrence(alloc, counts, first.id.as_str(), came)?;
    match came {
        Some(false) => Ok(occurrence),
        _ => {
            first.occurrence = occurrence;
            seat_one(entries, first, place, phase);
            Ok(occurrence)
        }
    }
}

/// Seats each entity of a snapshot at its place, in a phase in which none is, and tells how many with the same id stand before each.
fn seat_all(
    alloc: Global,
    entries: &mut BTreeMap<EntityKey, Seat>,
    feed: u8,
    kept: &Kept,
    phase: bool,
) -> Result<Vec<u32>, AllocError>
    requires { AreUnseated phase (λ key. at_key key entries.old.entries) }
    ensures seated { OnOk result ((key : Key) → at_key key entries.new.entries ≡ seat_all phase (placed_after feed [] 0 (entity_payloads kept.now)) (λ k. at_key k entries.old.entries) key) }
    ensures occurrences { IfOk result (λ counts. counts.items ≡ occurrences_after [] (entity_payloads kept.now)) }
{
    let mut counts = none_counted(alloc);
    let mut occurrences = Vec::new(alloc);
    let mut spare = None;
    for place in 0..kept.len() {
        let mut first = first_key(alloc, feed, kept, place, spare)?;
        let occurrence = seat_next(alloc, entries, &mut first, place, phase, &mut counts)?;
        occurrences.push(occurrence)?;
        spare = Some(first);
    }
    Ok(occurrences)
}

/// Lets what is of another phase go.
fn let_go(entries: &mut BTreeMap<EntityKey, Seat>, phase: bool)
    ensures { (key : Key) → at_key key entries.new.entries ≡ staying phase (at_key key entries.old.entries) }
{
    entries.retain(|_, seat| seat.phase() == phase);
}

/// What is held of a feed once its first snapshot was taken in.
pub(crate) fn first_room(
    alloc: Global,
    feed: u8,
    kept: Kept,
    incoming: Items<Incoming>,
) -> Result<Room, AllocError>
    requires { AreIncoming feed None kept incoming }
    ensures feed { IfOk result (λ room. room.feed ≡ feed) }
    ensures held { IfOk result (λ room. in_room (Some room) ≡ replaced feed kept incoming nothing) }
{
    let mut entries = BTreeMap::new(alloc);
    put_all(alloc, &mut entries, false, incoming)?;
    let occurrences = seat_all(alloc, &mut entries, feed, &kept, true)?;
    let _count = entries.len();
    Ok(Room {
        feed,
        kept,
        occurrences,
        phase: true,
        entries,
    })
}

/// Puts in what came in a phase, seats each entity of a snapshot at its place in the other one, lets the rest go, and tells how many with the same id
/// stand before each.
fn seat_anew(
    alloc: Global,
    entries: &mut BTreeMap<EntityKey, Seat>,
    feed: u8,
    kept: &Kept,
    phase: bool,
    incoming: Items<Incoming>,
) -> Result<Vec<u32>, AllocError>
    requires { AreUnseated (not phase) (λ key. at_key key entries.old.entries) }
    ensures seated { OnOk result ((key : Key) → at_key key entries.new.entries ≡ staying (not phase) (seat_all (not phase) (placed_after feed [] 0 (entity_payloads kept.now)) (put_all phase incoming (λ k. at_key k entries.old.entries)) key)) }
    ensures occurrences { IfOk result (λ counts. counts.items ≡ occurrences_after [] (entity_payloads kept.now)) }
{
    put_all(alloc, entries, phase, incoming)?;
    let occurrences = seat_all(alloc, entries, feed, kept, !phase)?;
    let_go(entries, !phase);
    Ok(occurrences)
}

/// The next Room where the ids are the same in the same order.
fn next_in_order(
    alloc: Global,
    room: Room,
    kept: Kept,
    incoming: Items<Incoming>,
) -> Result<Room, AllocError>
    requires incoming { AreIncoming room.feed (Some room.bytes) kept incoming }
    requires ids { pointwise bytes_eq (map id_of (entity_payloads room.bytes)) (map id_of (entity_payloads kept)) ≡ true }
    ensures feed { IfOk result (λ next. next.feed ≡ room.feed) }
    ensures held { IfOk result (λ next. in_room (Some next) ≡ replaced room.feed kept incoming (in_room (Some room))) }
{
    let Room {
        feed,
        kept: _,
        occurrences,
        phase,
        mut entries,
    } = room;
    put_all(alloc, &mut entries, phase, incoming)?;
    let _count = entries.len();
    Ok(Room {
        feed,
        kept,
        occurrences,
        phase,
        entries,
    })
}

/// The next Room whatever the ids are.
fn next_anew(
    alloc: Global,
    room: Room,
    kept: Kept,
    incoming: Items<Incoming>,
) -> Result<Room, AllocError>
    requires { AreIncoming room.feed (Some room.bytes) kept incoming }
    ensures feed { IfOk result (λ next. next.feed ≡ room.feed) }
    ensures held { IfOk result (λ next. in_room (Some next) ≡ replaced room.feed kept incoming (in_room (Some room))) }
{
    let Room {
        feed,
        kept: _,
        occurrences: _,
        phase,
        mut entries,
    } = room;
    let occurrences = seat_anew(alloc, &mut entries, feed, &kept, phase, incoming)?;
    let _count = entries.len();
    Ok(Room {
        feed,
        kept,
        occurrences,
        phase: !phase,
        entries,
    })
}

/// What is held of a feed once one more snapshot was taken in. Entities that stay are neither moved nor copied; where the ids are the same in the
/// same order, those that didn't come in aren't looked at.
pub(crate) fn next_room(
    alloc: Global,
    room: Room,
    kept: Kept,
    incoming: Items<Incoming>,
) -> Result<Room, AllocError>
    requires { AreIncoming room.feed (Some room.bytes) kept incoming }
    ensures feed { IfOk result (λ next. next.feed ≡ room.feed) }
    ensures held { IfOk result (λ next. in_room (Some next) ≡ replaced room.feed kept incoming (in_room (Some room))) }
{
    if have_same_ids(&room.kept, &kept) {
        next_in_order(alloc, room, kept, incoming)
    } else {
        next_anew(alloc, room, kept, incoming)
    }
}

fn set_under(
    entries: &mut BTreeMap<EntityKey, Seat>,
    key: &EntityKey,
    part: u8,
    list: Items<Standing>,
)
    requires { part < 4 }
    ensures parts { parts_in entries.new.entries ≡ set_at key.now part list (parts_in entries.old.entries) }
    ensures places { places_of entries.new.entries ≡ places_of entries.old.entries }
    ensures seats { (ps : List (List ℕ)) (phase : Bool) → AreSeated ps phase entries.old.entries → AreSeated ps phase entries.new.entries }
{
    match entries.get_mut(key) {
        Some(seat) => seat.set(part, list),
        None => {}
    }
}

fn take_under(entries: &mut BTreeMap<EntityKey, Seat>, alloc: Global, key: &EntityKey) -> Parts
    ensures taken { result ≡ unwrap_or (at_key key.now (parts_in entries.old.entries)) no_lists }
    ensures parts { parts_in entries.new.entries ≡ changed_under key.now (λ l. no_lists) (parts_in entries.old.entries) }
    ensures places { places_of entries.new.entries ≡ places_of entries.old.entries }
    ensures seats { (ps : List (List ℕ)) (phase : Bool) → AreSeated ps phase entries.old.entries → AreSeated ps phase entries.new.entries }
{
    match entries.get_mut(key) {
        Some(seat) => seat.take_parts(alloc),
        None => Parts::new(alloc),
    }
}

/// Gives up the lists under a key, where empty ones are then; where nothing is under it, all stays.
pub(crate) fn take_in(room: &mut Room, alloc: Global, key: &EntityKey) -> Parts
    ensures taken { result ≡ unwrap_or (parts_at key.now (parts_in room.old.seats)) no_lists }
    ensures feed { room.new.feed ≡ room.old.feed }
    ensures bytes { room.new.bytes ≡ room.old.bytes }
    ensures parts { parts_in room.new.seats ≡ changed_under key.now (λ l. no_lists) (parts_in room.old.seats) }
{
    take_under(&mut room.entries, alloc, key)
}

/// Puts a list in the place of the one of a number under a key; where nothing is under it, all stays.
pub(crate) fn set_in(room: &mut Room, key: &EntityKey, part: u8, list: Items<Standing>)
    requires { part < 4 }
    ensures feed { room.new.feed ≡ room.old.feed }
    ensures bytes { room.new.bytes ≡ room.old.bytes }
    ensures parts { parts_in room.new.seats ≡ set_at key.now part list (parts_in room.old.seats) }
{
    set_under(&mut room.entries, key, part, list);
}

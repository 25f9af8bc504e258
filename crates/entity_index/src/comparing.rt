//! What a snapshot changes among the entities that are held of its feed.
ghost use Rattle.std.specs.Prelude.{◌≡◌, ◌<◌, ◌+◌, ◌++◌, ◌∷◌, ℕ, List, [], true, false, Some, None, IfOk, OnOk, not, length, map, filter, get_or, replicate, bytes_eq, if◌then◌else◌};
ghost use Rattle.std.specs.Cmp.Lexicographic.{pointwise};
ghost use Rattle.feed_values.specs.Snapshot.{entity_payloads};
ghost use Rattle.rule_table.specs.Counts.{count_in};
ghost use Rattle.rule_history.specs.History.{id_of, entities_in};
ghost use Rattle.engine_laws.specs.Delta.{is_other};
ghost use Rattle.entity_index.specs.Held.{at_key};
ghost use Rattle.entity_index.specs.Changes.{IsChanges, fresh_keys, fresh_places, gone_keys};
ghost use Rattle.entity_index.specs.Met.{met_with};
ghost use Rattle.entity_index.specs.Seats.{differ_at, key_at};
ghost use Rattle.entity_index.specs.Tally.{IsTally, came_then, first_key, met_at};

use crate::incoming::Changes;
use crate::keys::{first_key, have_same_ids, keys_by_place, next_occurrence, none_counted};
use crate::room::Room;
use feed_stream::Kept;
use feed_values::Items;
use rule_table::{EntityId, EntityKey};
use std::alloc::{AllocError, Global};
use std::collections::BTreeMap;

/// Entities that are new or have other bytes, as far as they were found.
#[derive(Drop)]
struct Fresh {
    places: Items<u32>,
    keys: Items<EntityKey>,
    /// Whether there is one.
    any: bool,
}

fn none_fresh(alloc: Global) -> Fresh
    ensures places { result.places ≡ [] }
    ensures keys { result.keys ≡ [] }
    ensures any { result.any ≡ false }
{
    Fresh {
        places: Items::new(alloc),
        keys: Items::new(alloc),
        any: false,
    }
}

fn put_fresh(fresh: &mut Fresh, place: usize, key: EntityKey) -> Result<(), AllocError>
    ensures places { OnOk result (fresh.new.places ≡ fresh.old.places ++ place ∷ []) }
    ensures keys { OnOk result (fresh.new.keys ≡ fresh.old.keys ++ key ∷ []) }
    ensures any { OnOk result (fresh.new.any ≡ true) }
{
    let Ok(place) = u32::try_from(place) else {
        return Err(AllocError);
    };
    fresh.places.push(place)?;
    fresh.keys.push(key)?;
    fresh.any = true;
    Ok(())
}

/// The places of all entities of a snapshot, which is the first of its feed.
fn all_places(alloc: Global, kept: &Kept) -> Result<Items<u32>, AllocError>
    ensures { IfOk result (λ places. (f : ℕ) → places ≡ fresh_places f None kept.now) }
{
    let mut places = Items::new(alloc);
    for place in 0..kept.len() {
        let Ok(place) = u32::try_from(place) else {
            return Err(AllocError);
        };
        places.push(place)?;
    }
    Ok(places)
}

/// What the first snapshot of a feed changes: all is new.
pub(crate) fn first_changes(alloc: Global, feed: u8, kept: &Kept) -> Result<Changes, AllocError>
    ensures { IfOk result (IsChanges feed None kept.now) }
{
    let fresh = all_places(alloc, kept)?;
    let keys = keys_by_place(alloc, feed, kept)?;
    Ok(Changes {
        fresh,
        keys: Items::from_vec(keys),
        gone: Items::new(alloc),
        reordered: false,
    })
}

/// Puts an entity to those that have other bytes, if it has others than the one at its place, which has its key.
fn put_changed(
    alloc: Global,
    room: &Room,
    kept: &Kept,
    place: usize,
    fresh: &mut Fresh,
) -> Result<(), AllocError>
    requires ids { map id_of (entity_payloads room.now.bytes) ≡ map id_of (entity_payloads kept.now) }
    requires place { place < length (entity_payloads kept.now) }
    ensures places { OnOk result (fresh.new.places ≡ (if differ_at kept.now room.now.bytes place then fresh.old.places ++ place ∷ [] else fresh.old.places)) }
    ensures keys { OnOk result (fresh.new.keys ≡ (if differ_at kept.now room.now.bytes place then fresh.old.keys ++ key_at room.now.feed kept.now place ∷ [] else fresh.old.keys)) }
    ensures any { OnOk result (fresh.new.any ≡ (if differ_at kept.now room.now.bytes place then true else fresh.old.any)) }
{
    if kept.entity(place) == room.kept.entity(place) {
        return Ok(());
    }
    let id = EntityId::of(alloc, kept.entity_id(place))?;
    let occurrence = room.occurrences[place];
    let key = EntityKey {
        feed: room.feed,
        id,
        occurrence,
    };
    put_fresh(fresh, place, key)?;
    Ok(())
}

/// What a snapshot changes whose entities have the ids of those that are held, in the same order: they have the same keys at the same places, so
/// nothing is looked up.
fn in_same_order(alloc: Global, room: &Room, kept: &Kept) -> Result<Changes, AllocError>
    requires { map id_of (entity_payloads room.now.bytes) ≡ map id_of (entity_payloads kept.now) }
    ensures { IfOk result (IsChanges room.now.feed (Some room.now.bytes) kept.now) }
{
    let mut fresh = none_fresh(alloc);
    for place in 0..kept.len() {
        put_changed(alloc, room, kept, place, &mut fresh)?;
    }
    Ok(Changes {
        fresh: fresh.places,
        keys: fresh.keys,
        gone: Items::new(alloc),
        reordered: fresh.any,
    })
}

/// What of a snapshot was seen so far.
#[derive(Drop)]
struct Seen {
    /// Which of the entities that are held were met, by place.
    met: Vec<bool>,
    /// How often ids came, without the first ones that are held.
    counts: BTreeMap<String, u32>,
}

/// Of so many that are held none was met.
fn none_seen(alloc: Global, len: usize) -> Result<Seen, AllocError>
    ensures met { IfOk result (λ seen. seen.met.items ≡ replicate len false) }
    ensures counts { IfOk result (λ seen. (id : List ℕ) → count_in seen.counts id ≡ 0) }
{
    let mut met = Vec::new(alloc);
    met.resize(len, false)?;
    Ok(Seen {
        met,
        counts: none_counted(alloc),
    })
}

/// What an entity of a snapshot is to what is held under a key.
#[derive(Clone, Copy)]
struct Meeting {
    /// Whether that was met before, if anything is held.
    came: Option<bool>,
    /// Whether nothing is, or another byte string.
    other: bool,
}

/// Compares an entity with what is held under a key, which was met then.
fn meet(room: &Room, kept: &Kept, place: usize, key: &EntityKey, met: &mut Vec<bool>) -> Meeting
    requires place { place < length (entity_payloads kept.now) }
    requires met { length met.old.items ≡ length (entity_payloads room.now.bytes) }
    ensures came { result.came ≡ met_at met.old.items room.now.seats key.now }
    ensures other { result.other ≡ is_other (entities_in room.now.feed room.now.bytes) (key.now, get_or (entity_payloads kept.now) place []) }
    ensures met { met.new.items ≡ met_with (at_key key.now room.now.seats) met.old.items }
{
    match room.entries.get(key) {
        None => Meeting {
            came: None,
            other: true,
        },
        Some(seat) => {
            let before = seat.place();
            let came = met[before];
            met[before] = true;
            Meeting {
                came: Some(came),
                other: kept.entity(place) != room.kept.entity(before),
            }
        }
    }
}

/// Puts an entity to those that are new or have other bytes, if it is one, and else gives its key back.
fn put_if(
    fresh: &mut Fresh,
    other: bool,
    place: usize,
    key: EntityKey,
) -> Result<Option<EntityKey>, AllocError>
    ensures places { OnOk result (fresh.new.places ≡ (if other then fresh.old.places ++ place ∷ [] else fresh.old.places)) }
    ensures keys { OnOk result (fresh.new.keys ≡ (if other then fresh.old.keys ++ key ∷ [] else fresh.old.keys)) }
{
    if other {
        put_fresh(fresh, place, key)?;
        return Ok(None);
    }
    Ok(Some(key))
}

/// Whether what is held at a place was met.
fn was_met(met: &[bool], place: usize) -> bool
    ensures { result ≡ get_or met.now place false }
{
    met.get(place).copied().unwrap_or(false)
}

fn push_copy(keys: &mut Items<EntityKey>, key: &EntityKey) -> Result<(), AllocError>
    ensures { OnOk result (keys.new ≡ keys.old ++ key.now ∷ []) }
{
    keys.push(key.clone()?)?;
    Ok(())
}

/// The keys of those that are held and weren't met, in their order.
fn not_met(alloc: Global, room: &Room, met: &[bool]) -> Result<Items<EntityKey>, AllocError>
    ensures { IfOk result (λ gone. gone ≡ map (λ e. e.0) (filter (λ e. not (get_or met.now e.1.place false)) room.now.seats)) }
{
    let mut gone = Items::new(alloc);
    for (key, seat) in &room.entries {
        if !was_met(met, seat.place()) {
            push_copy(&mut gone, key)?;
        }
    }
    Ok(gone)
}

/// Gives an entity its key in the place of the first one of its id, and tells whether it isn't under that key among those that are held, or has
/// another byte string there.
fn meet_next(
    alloc: Global,
    room: &Room,
    kept: &Kept,
    place: usize,
    key: &mut EntityKey,
    seen: &mut Seen,
) -> Result<bool, AllocError>
    requires place { place < length (entity_payloads kept.now) }
    requires key { key.old ≡ first_key room.now.feed (id_of (get_or (entity_payloads kept.now) place [])) }
    requires met { length seen.old.met.items ≡ length (entity_payloads room.now.bytes) }
    requires tally { IsTally (met_at seen.old.met.items room.now.seats key.old) (key_at room.now.feed kept.now place).occurrence (count_in seen.old.counts key.old.id) }
    ensures key { OnOk result (key.new ≡ key_at room.now.feed kept.now place) }
    ensures other { IfOk result (λ other. other ≡ is_other (entities_in room.now.feed room.now.bytes) (key_at room.now.feed kept.now place, get_or (entity_payloads kept.now) place [])) }
    ensures met { OnOk result (seen.new.met.items ≡ met_with (at_key (key_at room.now.feed kept.now place) room.now.seats) seen.old.met.items) }
    ensures tally { OnOk result (IsTally (came_then (met_at seen.old.met.items room.now.seats key.old)) ((key_at room.now.feed kept.now place).occurrence + 1) (count_in seen.new.counts key.old.id)) }
    ensures others { OnOk result ((other : List ℕ) → bytes_eq key.old.id other ≡ false → count_in seen.new.counts other ≡ count_in seen.old.counts other) }
{
    let first = meet(room, kept, place, key, &mut seen.met);
    key.occurrence = next_occurrence(alloc, &mut seen.counts, key.id.as_str(), first.came)?;
    match first.came {
        Some(false) => Ok(first.other),
        _ => {
            let own = meet(room, kept, place, key, &mut seen.met);
            Ok(own.other)
        }
    }
}

/// Puts the entities to those that are new or have other bytes which are so, and tells the keys of those that are gone.
fn find_all(
    alloc: Global,
    room: &Room,
    kept: &Kept,
    fresh: &mut Fresh,
) -> Result<Items<EntityKey>, AllocError>
    requires places { fresh.old.places ≡ [] }
    requires keys { fresh.old.keys ≡ [] }
    ensures places { OnOk result (fresh.new.places ≡ fresh_places room.now.feed (Some room.now.bytes) kept.now) }
    ensures keys { OnOk result (fresh.new.keys ≡ fresh_keys room.now.feed (Some room.now.bytes) kept.now) }
    ensures gone { IfOk result (λ gone. gone ≡ gone_keys room.now.feed (Some room.now.bytes) kept.now) }
{
    let mut seen = none_seen(alloc, room.kept.len())?;
    let mut spare = None;
    for place in 0..kept.len() {
        let mut key = first_key(alloc, room.feed, kept, place, spare)?;
        let other = meet_next(alloc, room, kept, place, &mut key, &mut seen)?;
        spare = put_if(fresh, other, place, key)?;
    }
    let gone = not_met(alloc, room, seen.met.as_slice())?;
    Ok(gone)
}

/// What a snapshot changes whose entities have other ids, or another order, than those that are held.
fn by_keys(alloc: Global, room: &Room, kept: &Kept) -> Result<Changes, AllocError>
    requires { pointwise bytes_eq (map id_of (entity_payloads room.now.bytes)) (map id_of (entity_payloads kept.now)) ≡ false }
    ensures { IfOk result (IsChanges room.now.feed (Some room.now.bytes) kept.now) }
{
    let mut fresh = none_fresh(alloc);
    let gone = find_all(alloc, room, kept, &mut fresh)?;
    Ok(Changes {
        fresh: fresh.places,
        keys: fresh.keys,
        gone,
        reordered: true,
    })
}

/// What a snapshot changes among the entities that are held of its feed.
pub(crate) fn compared(alloc: Global, room: &Room, kept: &Kept) -> Result<Changes, AllocError>
    ensures { IfOk result (IsChanges room.now.feed (Some room.now.bytes) kept.now) }
{
    if have_same_ids(&room.kept, kept) {
        in_same_order(alloc, room, kept)
    } else {
        by_keys(alloc, room, kept)
    }
}

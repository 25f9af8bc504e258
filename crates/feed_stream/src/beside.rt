//! Entities that stand with the same bytes in the snapshot before. They passed there, so they aren't gone through again.
ghost use Rattle.std.specs.Prelude.{◌≡◌, true, IfOk};
ghost use Rattle.rt_wire.specs.Placed.{placed_field};
ghost use Rattle.feed_codec.specs.Refusal.{entity_fault, in_payload, part_fault};

use crate::kept::Kept;
use crate::numbers::{ENTITY, ID};
use feed_codec::last_payload;
use rt_wire::{RawField, RawValue};
use std::alloc::{AllocError, Global};

/// How many slots of a table are tried for one id, so that ids which somebody chose to meet there cost no more than others.
const TRIES: usize = 8;

/// How many bytes of an id decide where it stands in a table: its last ones.
const HASHED: usize = 64;

/// Where an entity is looked for in the snapshot before: beside the one that was found last, and else where its id stood. Bytes are compared there, so
/// what is answered doesn't depend on how it is looked for.
#[derive(Drop)]
pub struct Search {
    /// The place that is tried first.
    next: usize,
    /// The place of the entity that was found last.
    last: usize,
    /// By hashed id, a place and one more, or 0; without slots until an entity isn't where it was expected.
    places: Vec<u32>,
}

/// Whether the entity at a place has this payload.
fn is_at(before: &Kept, place: usize, payload: &[u8]) -> bool
    ensures { result ≡ true → entity_fault payload.now ≡ None }
{
    place < before.len() && before.entity(place) == payload
}

/// Whether the entity at a place has this id.
fn has_id(before: &Kept, place: usize, id: &[u8]) -> bool {
    place < before.len() && before.entity_id(place).as_bytes() == id
}

/// The slot, of so many, that is tried first for an id.
fn first_slot(id: &[u8], slots: usize) -> usize {
    let mut hash = 0u64;
    for byte in &id[id.len().saturating_sub(HASHED)..] {
        hash = (hash ^ u64::from(*byte)).wrapping_mul(0x9E37_79B9_7F4A_7C15);
        hash ^= hash >> 32;
    }
    match (hash as usize).checked_rem(slots) {
        Some(slot) => slot,
        None => 0,
    }
}

/// Puts the place of an id into the first free slot of those that are tried for it.
fn put_place(places: &mut Vec<u32>, id: &[u8], place: usize) {
    let Ok(number) = u32::try_from(place.saturating_add(1)) else {
        return;
    };
    let first = first_slot(id, places.len());
    for slot in first..first.saturating_add(TRIES) {
        match places.get_mut(slot) {
            Some(held) if *held == 0 => {
                *held = number;
                return;
            }
            _ => {}
        }
    }
}

/// The places of the entities of a snapshot, by their ids.
fn places_of(alloc: Global, before: &Kept) -> Result<Vec<u32>, AllocError> {
    let slots = before.len().saturating_mul(2).saturating_add(TRIES);
    let mut places = Vec::new(alloc);
    places.resize(slots, 0u32)?;
    for place in 0..before.len() {
        put_place(&mut places, before.entity_id(place).as_bytes(), place);
    }
    Ok(places)
}

impl Search {
    /// Nothing was looked for. It takes no memory.
    pub fn new(alloc: Global) -> Search {
        Search {
            next: 0,
            last: 0,
            places: Vec::new(alloc),
        }
    }

    /// An entity was found at this place. The next one is looked for behind it, or before it where it was found before the last one.
    fn found_at(&mut self, place: usize) {
        self.next = if place.saturating_add(1) == self.last {
            place.wrapping_sub(1)
        } else {
            place.saturating_add(1)
        };
        self.last = place;
    }

    /// Whether an entity with this id and payload is found in one of the slots for its id.
    fn finds(&mut self, before: &Kept, id: &[u8], payload: &[u8]) -> bool
        ensures { result ≡ true → entity_fault payload.now ≡ None }
    {
        let first = first_slot(id, self.places.len());
        for slot in first..first.saturating_add(TRIES) {
            let place = match self.places.get(slot) {
                Some(number) => (*number as usize).wrapping_sub(1),
                None => return false,
            };
            if is_at(before, place, payload) {
                self.found_at(place);
                return true;
            }
        }
        false
    }

    /// Whether an entity's payload stands in the snapshot before. Where it says so the payload passes, as it did there; where it doesn't, nothing is known.
    fn passes(&mut self, alloc: Global, before: &Kept, payload: &[u8]) -> Result<bool, AllocError>
        ensures { IfOk result (λ passes. passes ≡ true → entity_fault payload.now ≡ None) }
    {
        let place = self.next;
        if is_at(before, place, payload) {
            self.found_at(place);
            return Ok(true);
        }
        let Some(id) = last_payload(payload, ID) else {
            return Ok(false);
        };
        if self.places.is_empty() {
            // Only till there is a table, so that no id of the snapshot before is read again and again.
            if has_id(before, place, id) {
                self.found_at(place);
                return Ok(false);
            }
            self.places = places_of(alloc, before)?;
        }
        Ok(self.finds(before, id, payload))
    }
}

/// Whether a field of a snapshot is an entity that stands with the same bytes in the snapshot before, if there is one.
pub fn stands_before(
    alloc: Global,
    field: RawField<'_>,
    before: Option<&Kept>,
    search: &mut Search,
) -> Result<bool, AllocError>
    ensures { IfOk result (λ stands. stands ≡ true → in_payload part_fault (placed_field field.entry) ≡ None) }
{
    let Some(before) = before else {
        return Ok(false);
    };
    match field.value {
        RawValue::Len(payload) if field.number == ENTITY => search.passes(alloc, before, payload),
        _ => Ok(false),
    }
}

//! Where rules are judged.
ghost use Rattle.std.specs.Prelude.{◌≡◌, IfOk};
ghost use Rattle.rule_table.specs.Asked.{place_value, slot_of, index_of};

use crate::key::EntityKey;
use feed_values::{Path, Slot};
use std::alloc::AllocError;

/// Where a finding stands: at a slot of a feed's last header, or at a path of an entity.
#[derive(Drop)]
pub enum Place {
    Head(u8, Slot),
    Entity(EntityKey, Path),
}

/// The same with a borrowed key.
#[derive(Clone, Copy)]
pub enum PlaceRef<'a> {
    Head(u8, Slot),
    Entity(&'a EntityKey, Path),
}

impl Place {
    /// The same place. It shares the entity's id.
    pub fn clone(&self) -> Result<Place, AllocError>
        ensures { IfOk result (λ copy. copy ≡ self.now) }
    {
        self.borrowed().to_place()
    }

    /// The place with its key borrowed.
    pub fn borrowed(&self) -> PlaceRef<'_>
        ensures { place_value result ≡ self.now }
    {
        match self {
            Place::Head(feed, slot) => PlaceRef::Head(*feed, *slot),
            Place::Entity(key, path) => PlaceRef::Entity(key, *path),
        }
    }
}

impl PlaceRef<'_> {
    /// The place with a key of its own.
    pub fn to_place(self) -> Result<Place, AllocError>
        ensures { IfOk result (λ place. place ≡ place_value self.entry) }
    {
        match self {
            PlaceRef::Head(feed, slot) => Ok(Place::Head(feed, slot)),
            PlaceRef::Entity(key, path) => Ok(Place::Entity(key.clone()?, path)),
        }
    }

    /// Its slot.
    pub fn slot(self) -> Slot
        ensures { result ≡ slot_of (place_value self.entry) }
    {
        match self {
            PlaceRef::Head(_, slot) => slot,
            PlaceRef::Entity(_, path) => path.slot,
        }
    }

    /// Its index, 0 on a header.
    pub fn index(self) -> u32
        ensures { result ≡ index_of (place_value self.entry) }
    {
        match self {
            PlaceRef::Head(_, _) => 0,
            PlaceRef::Entity(_, path) => path.index,
        }
    }
}

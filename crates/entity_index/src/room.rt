//! What is held of a feed.
ghost use Rattle.std.specs.Prelude.{◌≡◌, ◌<◌};
ghost use Rattle.feed_values.specs.Views.{entity_value};
ghost use Rattle.entity_index.specs.Lists.{no_lists, with_list};

use crate::parts::Parts;
use feed_stream::Kept;
use feed_values::{Entity, Items};
use rule_table::EntityKey;
use standing_walks::Standing;
use std::alloc::Global;
use std::collections::BTreeMap;
use std::marker::Model;
use std::mem;

/// An entity as it is held. Contracts see it as its place, its phase, the entity's value and the four lists.
#[derive(Drop)]
pub(crate) struct Seat {
    /// Its place among the entities of the snapshot, from 0.
    place: usize,
    /// That of its room, unless the entity is gone.
    phase: bool,
    /// In memory of its own, so that it isn't moved when entries are.
    entity: Box<Entity>,
    parts: Parts,
}

impl Model for Seat {
    ghost use Rattle.entity_index.specs.Seats.{HeldSeat};

    ghost Value = { HeldSeat };

    ghost use Rattle.feed_values.specs.Views.{entity_value};

    ghost view = { λ s. record { place = s.place; phase = s.phase; value = entity_value s.entity.value; parts = s.parts } };
}

impl Seat {
    /// An entity that hasn't got its place yet, which is none of this phase.
    pub fn new(phase: bool, entity: Box<Entity>, parts: Parts) -> Seat
        ensures { result ≡ record { place = 0; phase = phase; value = entity_value entity.value; parts = parts } }
    {
        Seat {
            place: 0,
            phase,
            entity,
            parts,
        }
    }

    pub fn place(&self) -> usize
        ensures { result ≡ self.now.place }
    {
        self.place
    }

    pub fn phase(&self) -> bool
        ensures { result ≡ self.now.phase }
    {
        self.phase
    }

    pub fn entity(&self) -> &Entity
        ensures { entity_value result.now ≡ self.now.value }
    {
        self.entity.as_ref()
    }

    pub fn parts(&self) -> &Parts
        ensures { result.now ≡ self.now.parts }
    {
        &self.parts
    }

    /// Seats it at a place, in a phase.
    pub fn seat_at(&mut self, place: usize, phase: bool)
        ensures { self.new ≡ record self.old { place = place; phase = phase } }
    {
        self.place = place;
        self.phase = phase;
    }

    /// Puts another entity with its lists in the place of the one that it has.
    pub fn renew(&mut self, entity: Box<Entity>, parts: Parts)
        ensures { self.new ≡ record self.old { value = entity_value entity.value; parts = parts } }
    {
        self.entity = entity;
        self.parts = parts;
    }

    /// Gives up its lists, and has empty ones then.
    pub fn take_parts(&mut self, alloc: Global) -> Parts
        ensures taken { result ≡ self.old.parts }
        ensures left { self.new ≡ record self.old { parts = no_lists } }
    {
        mem::replace(&mut self.parts, Parts::new(alloc))
    }

    /// Puts a list in the place of the one of a number.
    pub fn set(&mut self, part: u8, list: Items<Standing>)
        requires { part < 4 }
        ensures { self.new ≡ record self.old { parts = with_list self.old.parts part list } }
    {
        self.parts.set(part, list);
    }
}

/// The last snapshot of a feed with its entities. Contracts see it as the feed's number, the bytes, the
/// phase and the seats.
#[derive(Drop)]
pub(crate) struct Room {
    pub feed: u8,
    pub kept: Kept,
    /// By place, how many entities with the same id stand before an entity.
    pub occurrences: Vec<u32>,
    /// It turns where a snapshot has other ids or another order than the one before it, which tells what stays from what is gone.
    pub phase: bool,
    pub entries: BTreeMap<EntityKey, Seat>,
}

impl Model for Room {
    ghost use Rattle.entity_index.specs.Rooms.{HeldRoom};

    ghost Value = { HeldRoom };

    ghost use Rattle.entity_index.specs.Inside.{IsRoom};

    ghost view = { λ r. record { feed = r.feed; bytes = r.kept; phase = r.phase; seats = r.entries.entries } };

    ghost invariant = { IsRoom };
}

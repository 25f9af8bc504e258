//! What is held of a feed, handed out in the order of keys.
ghost use Rattle.std.specs.Prelude.{◌≡◌};
ghost use Rattle.std.specs.Iterator.{YieldsFirstBy, YieldsFirstRef, item_count};
ghost use Rattle.entity_index.specs.Handed.{keyed_parts, keyed_seat, keyed_value, listed};

use crate::parts::Parts;
use crate::room::Seat;
use feed_values::Entity;
use rule_table::EntityKey;
use std::collections::btree_map::{Iter, Keys};
use std::marker::Model;

/// The keys that are left to hand out, in their order. Contracts see it as the list of them. It takes no memory.
#[derive(Drop)]
pub struct KeysIter<'a> {
    pub(crate) keys: Option<Keys<'a, EntityKey, Seat>>,
}

impl<'a> Model for KeysIter<'a> {
    ghost use Rattle.std.specs.Prelude.{List};
    ghost use Rattle.rule_table.specs.declared.key.EntityKey.{EntityKey as Key};
    ghost use Rattle.entity_index.specs.Handed.{listed};

    ghost Value = { List Key };

    ghost view = { λ s. listed s.keys };
}

impl<'a> Iterator for KeysIter<'a> {
    type Item = &'a EntityKey;

    ghost next_gives = { YieldsFirstRef (λ left. left) };

    ghost remaining = { item_count (λ left. left) };

    fn next(&mut self) -> Option<&'a EntityKey> {
        match &mut self.keys {
            None => None,
            Some(keys) => keys.next(),
        }
    }
}

/// Hands out one of those that are left of a feed, if it is held.
fn next_entry<'a>(
    entries: &mut Option<Iter<'a, EntityKey, Seat>>,
) -> Option<(&'a EntityKey, &'a Seat)>
    ensures { YieldsFirstBy keyed_seat (λ left. listed left) entries.old result entries.new }
{
    match entries {
        None => None,
        Some(entries) => entries.next(),
    }
}

/// The keys that are left to hand out, in their order, each with its four lists. Contracts see it as the list of them. It takes no memory.
#[derive(Drop)]
pub struct PartsIter<'a> {
    pub(crate) entries: Option<Iter<'a, EntityKey, Seat>>,
}

impl<'a> Model for PartsIter<'a> {
    ghost use Rattle.entity_index.specs.Held.{KeyedParts};
    ghost use Rattle.entity_index.specs.Seats.{parts_in};
    ghost use Rattle.entity_index.specs.Handed.{listed};

    ghost Value = { KeyedParts };

    ghost view = { λ s. parts_in (listed s.entries) };
}

impl<'a> Iterator for PartsIter<'a> {
    type Item = (&'a EntityKey, &'a Parts);

    ghost next_gives = { YieldsFirstBy keyed_parts (λ left. left) };

    ghost remaining = { item_count (λ left. left) };

    fn next(&mut self) -> Option<(&'a EntityKey, &'a Parts)> {
        let (key, seat) = next_entry(&mut self.entries)?;
        Some((key, seat.parts()))
    }
}

/// The keys that are left to hand out, in their order, each with its entity. Contracts see it as the list of them. It takes no memory.
#[derive(Drop)]
pub struct EntitiesIter<'a> {
    pub(crate) entries: Option<Iter<'a, EntityKey, Seat>>,
}

impl<'a> Model for EntitiesIter<'a> {
    ghost use Rattle.entity_index.specs.Held.{KeyedValues};
    ghost use Rattle.entity_index.specs.Seats.{values_in};
    ghost use Rattle.entity_index.specs.Handed.{listed};

    ghost Value = { KeyedValues };

    ghost view = { λ s. values_in (listed s.entries) };
}

impl<'a> Iterator for EntitiesIter<'a> {
    type Item = (&'a EntityKey, &'a Entity);

    ghost next_gives = { YieldsFirstBy keyed_value (λ left. left) };

    ghost remaining = { item_count (λ left. left) };

    fn next(&mut self) -> Option<(&'a EntityKey, &'a Entity)> {
        let (key, seat) = next_entry(&mut self.entries)?;
        Some((key, seat.entity()))
    }
}

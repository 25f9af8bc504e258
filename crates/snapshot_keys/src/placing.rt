//! The entities of a kept snapshot under their keys, by their numbers.
ghost use Rattle.std.specs.Prelude.{◌≡◌, Some, IfOk, option_copied};
ghost use Rattle.snapshot_keys.specs.ById.{AreById, AreNamed, key_behind};
ghost use Rattle.snapshot_keys.specs.Places.{ArePlaces};

use feed_stream::Kept;
use rule_table::{EntityId, EntityKey};
use std::alloc::{AllocError, Global};

/// An entity of a kept snapshot under its key.
#[derive(Drop)]
pub struct EntityPlace {
    pub key: EntityKey,
    /// The entity's number in the snapshot, from 0.
    pub number: usize,
}

/// An entity of a kept snapshot by its id, which is a part of the snapshot's bytes.
#[derive(Clone, Copy)]
pub(crate) struct NamedEntity<'a> {
    pub id: &'a str,
    pub number: usize,
}

/// The entities of a kept snapshot, in its order.
fn named<'a>(alloc: Global, kept: &'a Kept) -> Result<Vec<NamedEntity<'a>>, AllocError>
    ensures { IfOk result (λ list. AreNamed kept.now list.items) }
{
    let mut list = Vec::with_capacity(alloc, kept.len())?;
    for number in 0..kept.len() {
        let id = kept.entity_id(number);
        list.push(NamedEntity { id, number })?;
    }
    Ok(list)
}

/// The entities of a kept snapshot, in the order of their ids, and those of one id in the snapshot's order.
fn by_id<'a>(alloc: Global, kept: &'a Kept) -> Result<Vec<NamedEntity<'a>>, AllocError>
    ensures { IfOk result (λ list. AreById kept.now list.items) }
{
    let mut list = named(alloc, kept)?;
    list.sort_by_key(|entity| entity.id)?;
    Ok(list)
}

/// The key of an entity that comes behind this place in the order of ids, or comes first. All entities of one id share it.
fn key_behind(
    alloc: Global,
    feed: u8,
    last: Option<&EntityPlace>,
    id: &str,
) -> Result<EntityKey, AllocError>
    ensures { IfOk result (λ key. key ≡ key_behind feed (option_copied last.entry) id.now) }
{
    match last {
        Some(place) if place.key.id.as_str() == id => {
            let Some(occurrence) = place.key.occurrence.checked_add(1) else {
                return Err(AllocError);
            };
            let id = place.key.id.clone()?;
            Ok(EntityKey {
                feed,
                id,
                occurrence,
            })
        }
        _ => {
            let id = EntityId::of(alloc, id)?;
            Ok(EntityKey {
                feed,
                id,
                occurrence: 0,
            })
        }
    }
}

/// The entities of a kept snapshot of a feed under their keys, in the order of their keys.
///
/// Where more than 2^32 entities have one id, it answers want of memory.
pub fn places(alloc: Global, feed: u8, kept: &Kept) -> Result<Vec<EntityPlace>, AllocError>
    ensures { IfOk result (λ places. ArePlaces feed kept.now places.items) }
{
    let entities = by_id(alloc, kept)?;
    let mut places = Vec::with_capacity(alloc, entities.len())?;
    for entity in &entities {
        let key = key_behind(alloc, feed, places.last(), entity.id)?;
        places.push(EntityPlace {
            key,
            number: entity.number,
        })?;
    }
    Ok(places)
}

//! Entities under their ids in the union.
ghost use Rattle.std.specs.Prelude.{◌≡◌, ◌++◌, map, string_bytes, IfOk, OnOk};
ghost use Rattle.feed_values.specs.Views.{entity_value};
ghost use Rattle.feed_merge.specs.Union.{prefix, prefixed, renamed};

use feed_values::{Entity, Items, Text};
use std::alloc::{AllocError, Global};

/// What stands before the ids of a feed.
pub fn prefix(alloc: Global, feed: usize) -> Result<String, AllocError>
    ensures { IfOk result (λ text. string_bytes text ≡ prefix feed) }
{
    format!(in alloc; "{feed}:")
}

fn prefixed_id(alloc: Global, prefix: &str, id: &str) -> Result<Text, AllocError>
    ensures { IfOk result (λ text. text ≡ prefix.now ++ id.now) }
{
    let mut text = Text::of(alloc, prefix)?;
    text.push(id)?;
    Ok(text)
}

/// Puts this before the id of an entity.
pub fn rename(alloc: Global, prefix: &str, entity: &mut Entity) -> Result<(), AllocError>
    ensures { OnOk result (entity_value entity.new ≡ renamed prefix.now (entity_value entity.old)) }
{
    let id = prefixed_id(alloc, prefix, entity.id.as_str())?;
    entity.id = id;
    Ok(())
}

// The entity again, with this before its id.
fn renamed(alloc: Global, prefix: &str, entity: &Entity) -> Result<Entity, AllocError>
    ensures { IfOk result (λ copy. entity_value copy ≡ renamed prefix.now (entity_value entity.now)) }
{
    let mut copy = entity.clone(alloc)?;
    rename(alloc, prefix, &mut copy)?;
    Ok(copy)
}

/// Appends the entities of the feed of this number, each under its id in the union.
pub fn push_entities(
    alloc: Global,
    feed: usize,
    held: &Items<Entity>,
    entities: &mut Items<Entity>,
) -> Result<(), AllocError>
    ensures { OnOk result (map entity_value entities.new
        ≡ map entity_value entities.old ++ map (prefixed feed) (map entity_value held.now)) }
{
    let prefix = prefix(alloc, feed)?;
    for entity in held.as_slice() {
        entities.push(renamed(alloc, prefix.as_str(), entity)?)?;
    }
    Ok(())
}

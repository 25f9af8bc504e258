//! A snapshot in the place of the one before it, with the lists that stood.
ghost use Rattle.std.specs.Prelude.{◌≡◌, ℕ, false, IfOk, map};
ghost use Rattle.feed_values.specs.Views.{entity_value};
ghost use Rattle.rule_table.specs.declared.key.EntityKey.{EntityKey as Key};
ghost use Rattle.rule_table.specs.Groups.{Each};
ghost use Rattle.entity_parts.specs.part_laws.Touched.{is_among};
ghost use Rattle.entity_index.specs.Changes.{AreIncoming};
ghost use Rattle.entity_index.specs.Held.{held_at};
ghost use Rattle.touched_entities.specs.Again.{lists_under};
ghost use Rattle.touched_entities.specs.Exchanged.{AreDistinct, IsExchanged, Taken};

use entity_index::{EntityIndex, Incoming};
use feed_stream::Kept;
use feed_values::Items;
use std::alloc::{AllocError, Global};

/// Gives what comes in the lists that are held under its keys.
fn move_lists(
    alloc: Global,
    index: &mut EntityIndex,
    coming: Items<Incoming>,
) -> Result<Items<Incoming>, AllocError>
    requires { AreDistinct (map (λ c. c.key) coming) }
    ensures { IfOk result (Taken index.old index.new coming) }
{
    let mut came = Items::new(alloc);
    for incoming in coming.into_vec() {
        let mut incoming = incoming;
        incoming.parts = index.take_parts(&incoming.key);
        came.push(incoming)?;
    }
    Ok(came)
}

/// Takes a snapshot of a feed in: what comes in is that which is new or has other bytes, and each entity keeps the lists that are held under its key,
/// whatever came in. After want of memory the index is gone.
pub fn exchange(
    alloc: Global,
    index: EntityIndex,
    feed: u8,
    kept: Kept,
    coming: Items<Incoming>,
) -> Result<EntityIndex, AllocError>
    requires coming { AreIncoming feed (held_at index feed).bytes kept coming }
    ensures { IfOk result (IsExchanged feed kept index) }
{
    let mut index = index;
    let came = move_lists(alloc, &mut index, coming)?;
    let next = index.replace_feed(feed, kept, came)?;
    Ok(next)
}

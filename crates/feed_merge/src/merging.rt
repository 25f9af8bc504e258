//! The union of feeds.
ghost use Rattle.std.specs.Prelude.{◌≡◌, ◌≤◌, map, length, IfOk};
ghost use Rattle.std.specs.List.{AllByRecursion};
ghost use Rattle.feed_values.specs.Messages.{entity};
ghost use Rattle.feed_values.specs.Views.{entity_value, feed_header_value, feed_message_value, natural};
ghost use Rattle.feed_values.specs.WellFormed.{IsWellFormed, IsWellFormedFeed};
ghost use Rattle.feed_merge.specs.Union.{feed_limit, headed, united, united_from, union_header};

use crate::renaming::push_entities;
use crate::stamping::greatest_stamp;
use feed_values::{Entity, FeedHeader, FeedMessage, Items, Text};
use std::alloc::{AllocError, Global};

// The version of the specification that a union says. (GTFS Realtime Reference 2.0, "FeedHeader".)
const VERSION: &str = "2.0";

// (GTFS Realtime Reference 2.0, "Incrementality".)
const FULL_DATASET: u32 = 0;

// A header that says this timestamp.
fn header_of(alloc: Global, stamp: Option<u64>) -> Result<FeedHeader, AllocError>
    ensures { IfOk result (λ header. feed_header_value header ≡ union_header (natural stamp)) }
{
    Ok(FeedHeader {
        gtfs_realtime_version: Text::of(alloc, VERSION)?,
        incrementality: Some(FULL_DATASET),
        timestamp: stamp,
        feed_version: None,
        unknown: Items::new(alloc),
    })
}

/// A snapshot of these entities, whose header says this timestamp.
pub fn snapshot_of(
    alloc: Global,
    stamp: Option<u64>,
    entities: Items<Entity>,
) -> Result<FeedMessage, AllocError>
    ensures value { IfOk result (λ message. feed_message_value message ≡ headed (natural stamp) (map entity_value entities)) }
    ensures well_formed { AllByRecursion (IsWellFormed entity) (map entity_value entities)
        → IfOk result (λ message. IsWellFormedFeed (feed_message_value message)) }
{
    Ok(FeedMessage {
        header: header_of(alloc, stamp)?,
        entity: entities,
        unknown: Items::new(alloc),
    })
}

// The entities of the union.
fn united_entities(alloc: Global, feeds: &Items<FeedMessage>) -> Result<Items<Entity>, AllocError>
    ensures { IfOk result (λ entities. map entity_value entities ≡ united_from 0 (map feed_message_value feeds.now)) }
{
    let mut entities = Items::new(alloc);
    for (number, feed) in feeds.as_slice().iter().enumerate() {
        push_entities(alloc, number, &feed.entity, &mut entities)?;
    }
    Ok(entities)
}

/// The union of at most 16 feeds, which are numbered in their order. The one error is want of memory.
///
/// Every entity is made again. Where only the bytes are wanted, `merged_bytes` makes them of kept snapshots with far less memory.
pub fn merge(alloc: Global, feeds: &Items<FeedMessage>) -> Result<FeedMessage, AllocError>
    requires few { length feeds.now ≤ feed_limit }
    requires formed { AllByRecursion IsWellFormedFeed (map feed_message_value feeds.now) }
    ensures union { IfOk result (λ message. feed_message_value message ≡ united (map feed_message_value feeds.now)) }
    ensures well_formed { IfOk result (λ message. IsWellFormedFeed (feed_message_value message)) }
{
    let entities = united_entities(alloc, feeds)?;
    snapshot_of(alloc, greatest_stamp(feeds), entities)
}

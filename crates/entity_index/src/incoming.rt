//! What a snapshot changes, and what comes in with it.

use crate::parts::Parts;
use feed_values::{Entity, Items};
use rule_table::EntityKey;

/// What a snapshot of a feed changes among the entities that are held of it.
#[derive(Drop)]
pub struct Changes {
    /// The places in the snapshot, from 0 and in order, of the entities that are new or have other bytes.
    pub fresh: Items<u32>,
    /// Their keys, in the same order.
    pub keys: Items<EntityKey>,
    /// The keys of the entities that are there no longer, in the order of keys.
    pub gone: Items<EntityKey>,
    /// Whether a snapshot of the feed is held, and the list of its entities' byte strings is another.
    pub reordered: bool,
}

/// An entity that is new or has other bytes, decoded, with what stands at it.
#[derive(Drop)]
pub struct Incoming {
    pub key: EntityKey,
    pub entity: Entity,
    pub parts: Parts,
}

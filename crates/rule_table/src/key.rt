//! Entities by name.
ghost use Rattle.std.specs.Prelude.{◌≡◌, IfOk};

use crate::entity_id::EntityId;
use std::alloc::AllocError;

/// An entity of the last snapshot of a feed. Keys are ordered by feed, then id, then occurrence.
#[derive(PartialEq, Eq, PartialOrd, Ord, Drop)]
pub struct EntityKey {
    /// From 0.
    pub feed: u8,
    pub id: EntityId,
    /// How many entities with that id stand before it in its snapshot.
    pub occurrence: u32,
}

impl EntityKey {
    /// The same key. It shares the id.
    pub fn clone(&self) -> Result<EntityKey, AllocError>
        ensures { IfOk result (λ copy. copy ≡ self.now) }
    {
        Ok(EntityKey {
            feed: self.feed,
            id: self.id.clone()?,
            occurrence: self.occurrence,
        })
    }
}

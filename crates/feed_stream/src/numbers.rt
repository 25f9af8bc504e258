//! The numbers of slots. (GTFS Realtime Reference 2.0, the protocol buffer's definition.)

/// The header, in a snapshot.
pub const HEADER: u32 = 1;

/// The entities, in a snapshot.
pub const ENTITY: u32 = 2;

/// The id, in an entity.
pub const ID: u32 = 1;

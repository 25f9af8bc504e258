//! The union of feeds: one snapshot with the entities of several.
//!
//! Feeds are numbered from 0. Each entity of each feed stands in the union once, with all its fields, under an id of its own: the
//! feed's number in decimal, a colon and the id that it had. So ids of different feeds stay apart, and entities that had one id in
//! a feed still have one. The header says version 2.0, FULL_DATASET and the greatest timestamp of the feeds' headers; nothing else
//! of the headers, and no unknown field of a snapshot, is carried over. `specs/Union.antt` is that definition. What stands inside an
//! entity, as the ids of trips, stays as it is.
//!
//! `merge` gives the union of messages as a message. `merged_bytes` gives the canonical bytes of the union of kept snapshots, which
//! decode to it, and holds no more than one entity decoded. Want of memory is the one failure, beside that the bytes may be more
//! than a snapshot has.
//!
//! The modules, from the bottom up:
//!
//! - `merge_fault`: why there are no bytes
//! - `renaming`: entities under their ids in the union
//! - `stamping`: the greatest timestamp
//! - `merging`: the union
//! - `spelling`: the entities of a feed as bytes of the union
//! - `writing`: all its bytes
//! - `laws`: that ids stay apart, that each entity is kept, and that the bytes decode to the union
#![tactic(auto)]

mod laws;
mod merge_fault;
mod merging;
mod renaming;
mod spelling;
mod stamping;
mod writing;

pub use laws::{ids_stay_apart, stamp_is_greatest, union_decodes, union_keeps_entities};
pub use merge_fault::MergeFault;
pub use merging::merge;
pub use writing::merged_bytes;

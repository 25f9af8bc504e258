//! The last snapshot of each feed, with each of its entities decoded and what stands at it in four lists.
//!
//! An `EntityIndex` tells of a snapshot that came which entities are new or have other bytes, which are gone and whether their order changed
//! (`changes`), and then takes it in (`replace_feed`): entities that stay are neither moved nor copied, and other feeds cost nothing. It decodes
//! nothing: entities come in decoded, as `Incoming`.
//!
//! From the bottom up: `parts` are an entity's four lists, `incoming` is what comes in and what changed, `room` is what is held of a feed,
//! `keys` gives the entities of a snapshot their keys, `comparing` finds what changed, `renewing` takes a snapshot in, `iters` hands out what is
//! held, `index` joins the feeds. `laws` says how many are new.
#![tactic(auto)]

mod comparing;
mod incoming;
mod index;
mod iters;
mod keys;
mod laws;
mod parts;
mod renewing;
mod room;

pub use incoming::{Changes, Incoming};
pub use index::EntityIndex;
pub use iters::{EntitiesIter, KeysIter, PartsIter};
pub use laws::{fresh_are_tested, fresh_are_there};
pub use parts::Parts;

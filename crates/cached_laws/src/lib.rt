//! What an engine caches, and why it may judge again only what a snapshot touches: laws about the lists that each part of an entity's findings has.
//!
//! The engine holds four lists at each entity: what is found by the entity with the timetable, with the pairing rows of all entities, and by bounds, and
//! one that is empty. When a snapshot comes some keys are touched; `laws` says that judging each part again under its keys alone leaves what is owed
//! for the snapshot, that what was told meanwhile is what it changed, and that the keys are as many as the definitions count.
#![tactic(auto)]

mod laws;

pub use laws::{judged_is_change, judged_is_owed, keys_are_counted, touched_can_pass};

//! An engine that follows up to 16 feeds, and judges again only what a snapshot or another timetable changes.
//!
//! `engine` puts a snapshot at the end of the history, or another timetable in the place of the one that it has. `following` takes the steps of
//! `snapshot_steps` over what is held (`held_feeds`): what the snapshot brings and touches is known before it takes its place, and what it changes is judged
//! there. `delta` is what it changed. `retabling` has what another timetable concerns judged again.
#![tactic(auto)]

mod delta;
mod engine;
mod following;
mod retabling;

pub use delta::Delta;
pub use engine::Engine;
pub use exchanged_timetables::{Closed, EntitiesIter, FindingsIter, Opened, Retabled};

//! The trial: a made-up town of one stop, and two feeds of its trips, all from one number.
//!
//! It shows the program at work where no feed is at hand. `timetable_files` gives the timetable, as files in memory. A
//! `Trial` gives the snapshots of the two feeds one after the other, each as its canonical bytes: feed 0 has a trip update
//! for each of 2,000 trips, and feed 1 a vehicle position. From one snapshot of a feed to its next, 20 of them change, and
//! which do is drawn from the number.
//!
//! `trial_snapshots` of `specs/Snapshots.antt` says what the snapshots are, from the number alone, and `trial_contents` of
//! `specs/Files.antt` what the files hold. The one failure is want of memory.
//!
//! From the bottom up:
//! - `draws`: numbers drawn from a state
//! - `letter` and `entity_state`: what moves of an entity
//! - `changes`: how the entities of a feed change
//! - `entities`: the entities of a snapshot
//! - `trial`: the snapshots
//! - `files`: the timetable
//! - `laws`: that every snapshot is accepted
#![tactic(auto)]

mod changes;
mod draws;
mod entities;
mod entity_state;
mod files;
mod laws;
mod letter;
mod trial;

pub use files::{FOLDER, TRIPS, timetable_files};
pub use laws::snapshots_are_taken;
pub use trial::{ENTITIES, SNAPSHOTS, Trial, feed_of, moment_of};

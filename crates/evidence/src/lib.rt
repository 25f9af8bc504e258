//! Whether facts break a rule at a place, by the facts alone.
//!
//! A printed finding can be judged by whoever reads it: no snapshot, timetable or other finding is looked at. Nothing here
//! takes memory.
//!
//! `breaking` is that decision. `specs/DoesBreak.antt` has it as a definition that computes, and `laws` says that this is the
//! definition of rule_table.
#![tactic(auto)]

mod breaking;
mod laws;

pub use breaking::breaks;
pub use laws::does_break_is_breaks;

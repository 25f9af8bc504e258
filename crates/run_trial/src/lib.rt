//! The command `trial`: a timetable and snapshots that are made from a number, followed and summed up.
//!
//! `specs/Tried.antt` says what it writes and answers.
//!
//! - `sums`: sums over what snapshots change
//! - `summing`: the snapshots, taken one after the other
//! - `command`: the command, carried out
#![tactic(auto)]

mod summing;
mod sums;
mod command;

pub use command::trial;

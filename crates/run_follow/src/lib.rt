//! The command `follow`: what each snapshot of a list opens and closes, and each timetable.
//!
//! `specs/Follow.antt` says what it writes and answers, and which files it reads.
//!
//! - `list_fault`: what is told of a list that isn't read
//! - `command`: the command, carried out
#![tactic(auto)]

mod command;
mod list_fault;

pub use command::follow;

//! The command `check`: all findings on snapshots, each of a feed of its own.
//!
//! `specs/Check.antt` says what it writes and answers, and which files it reads. The snapshot in one file is checked without an engine,
//! by run_snapshot: the report is the same.
//!
//! - `standing`: all findings that stand, written one after the other
//! - `feeds`: several files
//! - `command`: the command, carried out
#![tactic(auto)]

mod command;
mod feeds;
mod standing;

pub use command::check;

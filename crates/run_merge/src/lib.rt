//! The command `merge`: one snapshot of several, each the snapshot of a feed of its own.
//!
//! `specs/Merged.antt` says what it writes and answers. All files are read before anything is written, and their snapshots are held
//! until then, each as its bytes. The union itself is that of feed_merge.
//!
//! - `gathered`: what was read so far, snapshots and lines of refused ones
//! - `reading`: all files
//! - `command`: the command, carried out
#![tactic(auto)]

mod command;
mod gathered;
mod reading;

pub use command::merge;

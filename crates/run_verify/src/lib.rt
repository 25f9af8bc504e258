//! The command `verify`: each line of a report is judged by itself.
//!
//! `specs/Verified.antt` says what it writes and answers.
//!
//! - `judged`: what a line is found to be
//! - `lines`: the lines that it writes
//! - `counts`: how many lines have each verdict
//! - `cutting`: a text's first line
//! - `sending`: the verdicts on all lines, sent as they are decided
//! - `command`: the command on a file
#![tactic(auto)]

mod command;
mod counts;
mod cutting;
mod judged;
mod lines;
mod sending;

pub use command::verify;

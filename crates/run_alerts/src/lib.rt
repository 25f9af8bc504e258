//! The command `alerts`: which alerts of snapshots are in force at a moment for whom is asked for, and when that can change next.
//!
//! `specs/Alerts.antt` says what it writes and answers. The snapshots are taken as `check` of several files takes them, by an engine,
//! without a timetable. What is in force is as alert_terms defines it.
//!
//! - `lines`: the lines of alerts
//! - `in_force`: those of all that are in force, and their sum
//! - `command`: the command, carried out
#![tactic(auto)]

mod command;
mod in_force;
mod lines;

pub use command::alerts;

//! What is said of a history of snapshots: which entities there are and under which keys, what the asks of rules are
//! answered then, what is found, since when a finding stands, and what one more snapshot changes.
//!
//! All of this is definitions: `specs/History.antt`, `Peaks`, `Answered`, `Findings`, `Standing`, `Changed`. The one piece of code,
//! `schedule`, is what a timetable answers.
#![tactic(auto)]

mod schedule;

pub use schedule::table_answer;

//! The lines of a report: JSON objects as compact text, each with a line feed.
//!
//! `specs/Findings.antt` says what each line of a finding holds; `compact_text` of serde_json's specs says which bytes that is. Keys
//! stand in byte order. The lines of snapshots are those of snapshot_lines, and are handed on.
//!
//! - `tokens`: the members of an object; `asked`: asks as JSON
//! - `finding`, `closed`: the lines of findings, and of rules that stand no more; facts that need not break their rule are printed too
//! - `lines`: lines of findings one after the other, and whether one is of an error
#![tactic(auto)]

mod asked;
mod closed;
mod finding;
mod lines;
mod tokens;

pub use closed::closed_line;
pub use finding::{LineKind, finding_line, finding_text};
pub use lines::{Lines, is_error};
pub use snapshot_lines::{Accepted, TrialSums, accepted_line, refused_line, trial_line};

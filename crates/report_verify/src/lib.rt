//! What a line of a report shows by itself.
//!
//! A line of a finding names a rule, a place and facts. Whether these facts break the rule there is told by the line alone, without
//! a feed, a timetable or trust in whoever wrote it: `verify_line` answers it. `specs/Verdicts.antt` says in its own words which
//! verdict a line has, and the functions of `laws` what follows from it.
//!
//! A line is read leniently and printed again: only where that gives the same bytes does it spell a finding. So a line has one
//! form, down to the order of its keys.
//!
//! - `members`: texts and numbers at the keys of a tree
//! - `fact`, `place`, `said`: what a tree says of a finding
//! - `spelled`: the finding that a line spells
//! - `verdict`: the verdict on a line
#![tactic(auto)]

mod fact;
mod laws;
mod members;
mod place;
mod said;
mod spelled;
mod verdict;

pub use laws::{confirmed_shows, printed_is_confirmed, spelled_once, verdict_is, verdict_is_one};
pub use verdict::{Verdict, verify_line};

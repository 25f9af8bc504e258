//! The lines of a report on a snapshot or a timetable: JSON objects as compact text, each with a line feed.
//!
//! `specs/Lines.antt` says what each line holds; `compact_text` of serde_json's specs says which bytes that is. Keys stand in
//! byte order.
//!
//! - `exchange`: the lines of accepted and of refused timetables
//! - `line`: a value as a line
//! - `snapshot`: the lines of accepted and of refused snapshots
//! - `trial`: the line that sums up a trial
#![tactic(auto)]

mod exchange;
mod line;
mod snapshot;
mod trial;

pub use exchange::{Exchanged, exchanged_line, refused_timetable_line};
pub use line::line_of;
pub use snapshot::{Accepted, accepted_line, refused_line};
pub use trial::{TrialSums, trial_line};

//! The timetable that a command asks for: read from its folder, or why it isn't had.
//!
//! `specs/Timetables.antt` says what a refused timetable is told as, and what a report with a timetable is.
//!
//! - `refusal`: what is told of a timetable that isn't loaded
//! - `loading`: the timetable of a folder that may be given
#![tactic(auto)]

mod loading;
mod refusal;

pub use loading::load_given;
pub use refusal::{load_fault, why_refused};

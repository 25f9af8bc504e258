//! A report that is read from a file, line by line.
//!
//! [`count_report`] gives the counts of the lines of a file, however its bytes arrive. It holds one line at a time, and of a line that is longer than
//! a report's may be only the beginning. `specs/Lines.antt` says what the lines of a file are.
//!
//! - `reader`: the bytes that came, one by one
//! - `reading`: a file
#![tactic(auto)]

mod reader;
mod reading;

pub use reading::count_report;

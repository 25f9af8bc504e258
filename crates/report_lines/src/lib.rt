//! What a line of a report says, as far as a summary asks.
//!
//! A line is read as JSON, in any order of its keys, so lines that another program wrote again are read too. `specs/Lines.antt` says of
//! each list of bytes what it is as a line of a report. The facts of a finding aren't asked: `report_verify` judges them.
//!
//! - `members`: texts and numbers at the keys of a tree
//! - `line_name`: the kinds of lines, by the text at `line`
//! - `telling`: what a line tells of its rule
//! - `line`: what a line says
#![tactic(auto)]

mod line;
mod line_name;
mod members;
mod telling;

pub use line::{LINE_LIMIT, RefusedLine, RefusedTimetable, ReportLine, read_line, tree_of};
pub use members::{count_at, text_at};
pub use telling::rule_named;

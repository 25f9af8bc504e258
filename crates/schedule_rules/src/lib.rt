//! The rules against the timetable, as a group: the rows of the table of `rule_table`, each of which asks the timetable. Where
//! the timetable is absent there are no findings.
//!
//! `group` is the group, and `laws` says that it finds nothing where there is no timetable.
#![tactic(auto)]

mod group;
mod laws;

pub use group::ScheduleGroup;
pub use laws::no_timetable_no_findings;

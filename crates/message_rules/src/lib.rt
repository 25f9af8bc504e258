//! The rules within one message, as a group: the rows of the table of `rule_table`, each of which cites nothing but the cells of
//! one entity and its occurrence. They need no timetable, no other entity and no header.
//!
//! `group` is all of it.
#![tactic(auto)]

mod group;

pub use group::MessageGroup;

//! The groups of rules.

use held_feeds::{HeaderRules, PartRules};
use std::alloc::Global;
use timetable::Timetable;

/// The groups of rules: those that are judged on headers, and the parts that are judged at entities.
#[derive(Drop)]
pub struct Rules {
    pub headers: HeaderRules,
    pub parts: PartRules,
}

/// What a snapshot is judged with: the rules, the timetable, and how many snapshots were taken before it.
#[derive(Clone, Copy)]
pub struct Judging<'a> {
    pub alloc: Global,
    pub rules: &'a Rules,
    pub table: &'a Timetable,
    pub applied: u64,
}

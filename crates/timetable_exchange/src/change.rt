//! What an exchange of the timetable changed.

use feed_values::Items;
use follow_engine::{Closed, Opened};

/// What an exchange of the timetable changed.
#[derive(Drop)]
pub struct Exchange {
    /// The findings that weren't there with the old timetable with the same facts, in the order of findings.
    pub opened: Items<Opened>,
    /// The rules at places that stood with the old one and don't now, in the order of findings.
    pub closed: Items<Closed>,
    /// How many entities all feeds have.
    pub entities: u64,
    /// How many of them were judged again: those for which the two timetables don't agree.
    pub retested: u64,
}

//! What a snapshot changes.

use exchanged_timetables::{Closed, Opened};
use feed_values::Items;

/// What one more snapshot changed.
#[derive(Drop)]
pub struct Delta {
    /// The number of the snapshot, which is how many were taken before it.
    pub snapshot: u64,
    /// How many entities it has.
    pub entities: u64,
    /// The findings that weren't there before it with the same facts, in the order of findings.
    pub opened: Items<Opened>,
    /// The rules at places that stood before it and don't now, in the order of findings.
    pub closed: Items<Closed>,
    /// How many of its entities are new or have other bytes than the one with their key before.
    pub tested: u64,
    /// How many entities of all feeds are so, or have a pairing row that shares a trip id or a vehicle id with a row that came
    /// or went, or are of a kind whose counterpart got its first row or lost its last one.
    pub paired: u64,
    /// How many of its entities are new or have other bytes, or, where the header's timestamp or the moment is another than
    /// before, have a finding of E012 or E050 now or had one.
    pub bounded: u64,
    /// How many of its entities are new or have other bytes, or give a vehicle whose peak is another than before.
    pub peaked: u64,
}

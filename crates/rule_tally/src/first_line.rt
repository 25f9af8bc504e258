//! The first line of a rule, and what it stands behind.

use feed_values::Items;

/// What a line of a report stands behind.
#[derive(Clone, Copy)]
pub struct Behind {
    /// When the last accepted snapshot before it was judged, in POSIX seconds, where that is known.
    pub moment: Option<u64>,
    /// The row of the last timetable that was exchanged since that snapshot, from 0; none where none was.
    pub timetable: Option<u64>,
}

/// The first line that is a finding or an opening, and what it stands behind.
#[derive(Drop)]
pub struct FirstLine {
    pub behind: Behind,
    pub line: Items<u8>,
}

//! Timestamps by feed.

/// A timestamp, in POSIX seconds, of an entity of a feed. Moments are ordered by feed, then timestamp.
#[derive(Clone, Copy, PartialEq, Eq, PartialOrd, Ord)]
pub(crate) struct Moment {
    pub feed: u8,
    pub stamp: u64,
}

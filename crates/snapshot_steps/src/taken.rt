//! A snapshot that was taken.

use feed_stream::Kept;

/// A snapshot of a feed, with the moment at which it was taken, in seconds from 1970.
#[derive(Drop)]
pub struct Taken {
    pub feed: u8,
    pub moment: u64,
    pub kept: Kept,
}

//! The timestamp of the union.
ghost use Rattle.std.specs.Prelude.{◌≡◌, ◌++◌, [], ℤ, List, map, IfOk};
ghost use Rattle.std.specs.List.{cons_option};
ghost use Rattle.feed_values.specs.Snapshot.{snapshot_value};
ghost use Rattle.feed_values.specs.Views.{feed_message_value, natural};
ghost use Rattle.feed_merge.specs.Union.{greatest, greatest_stamp};

use feed_codec::decode_header;
use feed_stream::Kept;
use feed_values::{FeedMessage, Items};
use std::alloc::{AllocError, Global};

// The greatest of some timestamps and of one behind them, each where it is given.
fn greater_stamp(before: Option<u64>, stamp: Option<u64>) -> Option<u64>
    ensures { (zs : List ℤ) → natural before ≡ greatest zs → natural result ≡ greatest (zs ++ cons_option (natural stamp) []) }
{
    match (before, stamp) {
        (Some(a), Some(b)) => Some(if b < a { a } else { b }),
        (None, Some(b)) => Some(b),
        (a, None) => a,
    }
}

/// The greatest timestamp that headers give, as POSIX time in seconds, or none where none gives one.
pub fn greatest_stamp(feeds: &Items<FeedMessage>) -> Option<u64>
    ensures { natural result ≡ greatest_stamp (map feed_message_value feeds.now) }
{
    let mut greatest = None;
    for feed in feeds.as_slice() {
        greatest = greater_stamp(greatest, feed.header.timestamp);
    }
    greatest
}

/// The same of kept snapshots, whose headers are decoded for it.
pub fn greatest_kept_stamp(alloc: Global, feeds: &Items<Kept>) -> Result<Option<u64>, AllocError>
    ensures { IfOk result (λ stamp. natural stamp ≡ greatest_stamp (map snapshot_value feeds.now)) }
{
    let mut greatest = None;
    for feed in feeds.as_slice() {
        let header = decode_header(alloc, feed.header_parts())?;
        greatest = greater_stamp(greatest, header.timestamp);
    }
    Ok(greatest)
}

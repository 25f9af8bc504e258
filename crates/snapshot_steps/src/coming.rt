//! A snapshot that comes, decoded where it is new.
ghost use Rattle.std.specs.Prelude.{◌≡◌, ◌+◌, ◌≤◌, length, IfOk, OnOk, option_map};
ghost use Rattle.feed_values.specs.Snapshot.{header_of};
ghost use Rattle.feed_values.specs.Views.{feed_header_value};
ghost use Rattle.held_feeds.specs.entity_index.Changes.{fresh_places};
ghost use Rattle.held_feeds.specs.entity_index.Held.{held_at};
ghost use Rattle.snapshot_steps.specs.Coming.{IsComing};
ghost use Rattle.snapshot_steps.specs.Taken.{snapshot_of};

use crate::taken::Taken;
use feed_codec::decode_header;
use feed_values::{FeedHeader, Items};
use held_feeds::{Changes, EntityIndex, Incoming, decode_fresh, fresh_are_there};
use rt_outside::Steps;
use std::alloc::{AllocError, Global};
use std::sync::ledger::Ledger;

/// What is known of a snapshot before it takes its place: its header and that of the snapshot before it, what it changes among the entities of its
/// feed, and those that are new or have other bytes, decoded.
#[derive(Drop)]
pub struct Coming {
    pub header: FeedHeader,
    pub before: Option<FeedHeader>,
    pub changes: Changes,
    pub entities: Items<Incoming>,
}

/// The header of the last snapshot of a feed, if it has one.
fn header_before(
    alloc: Global,
    index: &EntityIndex,
    feed: u8,
) -> Result<Option<FeedHeader>, AllocError>
    ensures { IfOk result (λ header. option_map feed_header_value header ≡ option_map header_of (held_at index.now feed).bytes) }
{
    match index.kept_of(feed) {
        None => Ok(None),
        Some(kept) => {
            let header = decode_header(alloc, kept.header_parts())?;
            Ok(Some(header))
        }
    }
}

/// Compares a snapshot with the one that is held of its feed. It ticks once for each entity that is new or has other bytes.
pub fn come<D: Ledger>(
    alloc: Global,
    taken: &Taken,
    index: &EntityIndex,
    decodes: &mut Steps<D>,
) -> Result<Coming, AllocError>
    ensures coming { IfOk result (IsComing (snapshot_of taken.now) index.now) }
    ensures ticked { OnOk result (decodes.new ≡ decodes.old + length (fresh_places taken.now.feed (held_at index.now taken.now.feed).bytes taken.now.kept)) }
    ensures most { decodes.new ≤ decodes.old + length (fresh_places taken.now.feed (held_at index.now taken.now.feed).bytes taken.now.kept) }
{
    let header = decode_header(alloc, taken.kept.header_parts())?;
    let before = header_before(alloc, index, taken.feed)?;
    let changes = index.changes(alloc, taken.feed, &taken.kept)?;
    fresh_are_there();
    let entities = decode_fresh(alloc, taken.feed, &taken.kept, &changes, decodes)?;
    Ok(Coming {
        header,
        before,
        changes,
        entities,
    })
}

//! The bytes of the union of feeds.
ghost use Rattle.std.specs.Prelude.{◌≡◌, ◌≤◌, ◌<◌, [], Err, map, length, IfOk};
ghost use Rattle.feed_values.specs.Accepted.{snapshot_limit};
ghost use Rattle.feed_values.specs.Canonical.{canonical};
ghost use Rattle.feed_values.specs.Messages.{feed_message};
ghost use Rattle.feed_values.specs.Snapshot.{snapshot_value};
ghost use Rattle.feed_values.specs.Views.{natural};
ghost use Rattle.feed_merge.specs.Union.{feed_limit, headed, united};
ghost use Rattle.feed_merge.specs.declared.merge_fault.MergeFault.TheVariants.{TooLarge};

use crate::merge_fault::MergeFault;
use crate::merging::snapshot_of;
use crate::spelling::{put_entities, within_limit};
use crate::stamping::greatest_kept_stamp;
use feed_codec::encode;
use feed_stream::Kept;
use feed_values::Items;
use std::alloc::{AllocError, Global};

// The bytes of a union that has this timestamp and no entities.
fn header_bytes(alloc: Global, stamp: Option<u64>) -> Result<Vec<u8>, AllocError>
    ensures { IfOk result (λ bytes. bytes.items ≡ canonical feed_message (headed (natural stamp) [])) }
{
    let message = snapshot_of(alloc, stamp, Items::new(alloc))?;
    encode(alloc, &message)
}

/// The canonical bytes of the union of at most 16 kept snapshots, which are numbered in their order: what `encode` gives of the
/// union of what they mean, as `merge` makes it.
///
/// `TooLarge` is answered where they are more than `SNAPSHOT_LIMIT`, and as soon as they are. One entity at a time is decoded, so
/// memory is that of the greatest one and of the bytes.
pub fn merged_bytes(alloc: Global, feeds: &Items<Kept>) -> Result<Vec<u8>, MergeFault>
    requires few { length feeds.now ≤ feed_limit }
    ensures ok { IfOk result (λ bytes. bytes.items ≡ canonical feed_message (united (map snapshot_value feeds.now))) }
    ensures small { IfOk result (λ bytes. length bytes.items ≤ snapshot_limit) }
    ensures too_large { result ≡ Err TooLarge → snapshot_limit < length (canonical feed_message (united (map snapshot_value feeds.now))) }
{
    let stamp = greatest_kept_stamp(alloc, feeds)?;
    let mut bytes = header_bytes(alloc, stamp)?;
    for (number, feed) in feeds.as_slice().iter().enumerate() {
        put_entities(alloc, number, feed, &mut bytes)?;
    }
    within_limit(&bytes)?;
    Ok(bytes)
}

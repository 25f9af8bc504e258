//! The canonical bytes of a snapshot, and of one entity in it.
ghost use Rattle.std.specs.Prelude.{◌≡◌, ◌++◌, IfOk, OnOk};
ghost use Rattle.rt_wire.specs.Fields.{Len};
ghost use Rattle.feed_values.specs.Messages.{entity, feed_message};
ghost use Rattle.feed_values.specs.Views.{entity_value, feed_message_value};
ghost use Rattle.feed_values.specs.WellFormed.{IsWellFormed, IsWellFormedFeed};
ghost use Rattle.feed_values.specs.Canonical.{canonical, spelled_slot};

use crate::encoding::{Encode, Held};
use crate::numbers::ENTITY;
use feed_values::{Entity, FeedMessage};
use std::alloc::{AllocError, Global};

/// The canonical bytes of a snapshot.
///
/// For each message the slots that hold something by rising number, then its unknown fields in order; each tag, number and
/// length in its shortest spelling. The message has to be well formed, as one that was decoded is; of any other
/// `feed_values::well_formed` tells. A negative number takes ten bytes, so there may be more bytes than the message was
/// decoded from, and `decode` takes back only what stays within `SNAPSHOT_LIMIT`. The one error is want of memory.
/// (Protocol Buffers, Encoding, "Message Structure", "Signed Integers"; that slots stand by rising number and unknown
/// fields last is this profile's.)
pub fn encode(alloc: Global, message: &FeedMessage) -> Result<Vec<u8>, AllocError>
    requires { IsWellFormedFeed (feed_message_value message.now) }
    ensures { IfOk result (λ bytes. bytes.items ≡ canonical feed_message (feed_message_value message.now)) }
{
    let mut bytes = Vec::new(alloc);
    message.put(alloc, &mut bytes)?;
    Ok(bytes)
}

/// Appends an entity as it stands in the canonical bytes of a snapshot, under its tag and its length. It has to be well formed, as one that was
/// decoded is. The one error is want of memory. (GTFS Realtime Reference 2.0, "FeedMessage", the field `entity`.)
pub fn put_entity(alloc: Global, held: &Entity, out: &mut Vec<u8>) -> Result<(), AllocError>
    requires { IsWellFormed entity (entity_value held.now) }
    ensures { OnOk result (out.new.items ≡ out.old.items ++ spelled_slot 2 (Len (canonical entity (entity_value held.now)))) }
{
    held.put_in(alloc, out, ENTITY)
}

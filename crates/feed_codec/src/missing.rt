//! The required slots of an entity, without taking memory.
ghost use Rattle.std.specs.Prelude.{◌≡◌, ◌&&◌, not};
ghost use Rattle.feed_values.specs.Messages.{entity};
ghost use Rattle.feed_values.specs.Meaning.{fields};
ghost use Rattle.feed_values.specs.Accepted.{missing};

use crate::held_slots::HeldSlots;
use feed_values::Required;

/// Whether a message is there without the slot that it requires.
fn lacks(message: bool, slot: bool) -> bool
    ensures { result ≡ (message && not slot) }
{
    message && !slot
}

/// The first required slot that an entity lacks, in the order id, trip, latitude, longitude, text.
///
/// The payloads of a single message count together. (GTFS Realtime Reference 2.0, "Element Index".)
pub fn missing_in_entity(bytes: &[u8]) -> Option<Required>
    ensures { result ≡ missing entity (fields bytes.now) }
{
    let held = HeldSlots::at(bytes);
    if !held.id {
        return Some(Required::Id);
    }
    if lacks(held.update, held.trip) {
        return Some(Required::Trip);
    }
    if lacks(held.position.given, held.position.latitude) {
        return Some(Required::Latitude);
    }
    if lacks(held.position.given, held.position.longitude) {
        return Some(Required::Longitude);
    }
    if held.blank_text {
        return Some(Required::Text);
    }
    None
}

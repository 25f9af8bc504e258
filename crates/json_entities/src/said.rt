//! What is said at a key by an array of messages.

use feed_json::JsonFault;
use feed_values::Items;

/// What an array of messages says at its key.
#[derive(Drop)]
pub enum Said<M> {
    /// The messages of its items.
    Messages(Items<M>),
    /// The first fault of what stands there.
    Fault(JsonFault),
}

//! A snapshot that arrives in pieces, and an accepted one that is held once.
//!
//! A `Splitter` takes the pieces of a snapshot, of whatever sizes, and goes through its fields while they come, each byte once. What no
//! further byte can mend is refused at once, and from then on bytes are only counted. `finish` answers what `decode` of feed_codec
//! answers for the joined pieces: the first fault, or a `Kept`; it takes no memory and walks through nothing again.
//!
//! A `Kept` is an accepted snapshot, and contracts see it as its bytes. It owns them once. Its entities, their ids, and the header
//! where that came in one payload, are ranges of them, so each is handed out without memory, in the form that the codec
//! decodes.
//!
//! From the bottom up: `numbers` has those of slots, `part` is a range, `header` holds the header's payloads joined, `layout` says where
//! the header and the entities lie, `beside` finds entities of the snapshot before, `walking` goes through the fields as far as bytes came, `kept` and `splitter` are the two types.
//! `laws` says where an entity stands, in words of the snapshot's fields, and which refusals stay.
#![tactic(auto)]

mod beside;
mod header;
mod kept;
mod laws;
mod layout;
mod numbers;
mod part;
mod splitter;
mod walking;

pub use kept::Kept;
pub use laws::{entities_follow_fields, settled_stays};
pub use splitter::Splitter;

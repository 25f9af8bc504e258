//! From the bytes of a GTFS Realtime snapshot to its value or its first fault, and from a value to its canonical bytes.
//!
//! A snapshot is accepted where it has at most 67,108,864 bytes and they are a message of fields, in turn for the messages
//! inside; where each text in it is UTF-8; where the slots that the reference marks as required are there; and where it
//! isn't DIFFERENTIAL. Any other is refused, with the first place where it goes wrong (a byte of the snapshot, from 0) and
//! a `Reason`.
//!
//! - `decode` gives what an accepted snapshot means: a `FeedMessage`, which is well formed. It refuses every other.
//! - `check_snapshot` decides the same without memory. `check_entity`, `check_header_part` and `check_header` do so for
//!   one entity, one payload of the header, and the header's payloads together.
//! - `decode_entity` gives what the payload of one entity means, and counts a step. `decode_header` gives what the
//!   payloads of the header mean together. `decode_trip_properties` and `decode_stop_time_properties` do so for these messages
//!   by themselves.
//! - `encode` writes the canonical bytes of a well-formed message, which decode to that message again.
//!
//! Want of memory is the one failure beside a refusal. What a snapshot means, which are accepted, and the canonical bytes
//! are definitions of feed_values; `specs/Refusal.antt` computes the first fault, and `specs/FirstFault.antt` says as a
//! relation what it is. Laws are functions that do nothing, whose contracts are proved for all bytes and values.
//!
//! What is said of every kind of message is one function over its table of slots: a kind has an impl of `Message`, by
//! which it is checked and decoded, and one of `Encode`. The modules, from the bottom up:
//!
//! - `refusal`: why bytes are no snapshot, and where
//! - `codec_fault`: a refusal, or want of memory
//! - `stopped`: that something is wrong, or no memory is left
//! - `numbers`: the numbers of the slots that are asked for by name
//! - `taking`: a number or a text into its slot
//! - `unknown`: a field of no slot, with memory of its own
//! - `paths`: whether a field is there, at a path of slots
//! - `payloads`: the last payload of a slot
//! - `room`: lists with the room that they need
//! - `message`: any message, field by field
//! - `checking`: the first fault of any message, but for required slots
//! - `descriptors`, `properties`, `translation`, `alert`, `vehicle_position`, `trip_update`, `feed`: the kinds of message
//! - `held_slots`: what is there of the required slots of an entity
//! - `missing`: the first of them that it lacks
//! - `entity`: one entity, or one payload of the header, by itself
//! - `header`: what is asked of the header at the snapshot's end
//! - `snapshot`: a whole snapshot, checked and decoded
//! - `laws`: that a refusal is the first fault, and that the parts of a snapshot decide as the whole
//! - `encoding`: any message, written slot by slot
//! - in `encoding`, `held`, `scalars` and `payload`: what a slot holds, written, be it a text, a number or messages
//! - in `encoding`, `descriptors`, `properties`, `translation`, `alert`, `vehicle_position`, `trip_update`, `feed`: the kinds of
//!   message, written
//! - `canonical`: a whole snapshot, written
//! - `encoding_laws`: that encoding and decoding undo each other
#![tactic(auto)]

mod alert;
mod canonical;
mod checking;
mod codec_fault;
mod descriptors;
mod encoding;
mod encoding_laws;
mod entity;
mod feed;
mod header;
mod held_slots;
mod laws;
mod message;
mod missing;
mod numbers;
mod paths;
mod payloads;
mod properties;
mod refusal;
mod room;
mod snapshot;
mod stopped;
mod taking;
mod translation;
mod trip_update;
mod unknown;
mod vehicle_position;

pub use canonical::{encode, put_entity};
pub use checking::reason_of;
pub use codec_fault::CodecFault;
pub use encoding_laws::{
    accepted_is_well_formed, canonical_decides, canonical_means_value, encoded_decodes,
    values_are_faithful,
};
pub use entity::{check_entity, check_header_part, decode_entity, decode_header};
pub use header::check_header;
pub use laws::{missing_is_first, parts_decide, refusal_is_first};
pub use payloads::{last_payload, payload_of};
pub use properties::{
    check_stop_time_properties, check_trip_properties, decode_stop_time_properties,
    decode_trip_properties,
};
pub use refusal::{Reason, Refusal, Required};
pub use snapshot::{SNAPSHOT_LIMIT, check_snapshot, decode};

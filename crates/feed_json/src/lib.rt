//! The JSON form of a snapshot, both ways: any well-formed message as a tree, and a tree as the message that it says.
//!
//! A message is an object with a key for each field that it holds, by the field's name. A repeated field is an array, and
//! isn't there where it is empty. Texts are strings, truth values are true or false, and numbers, enums and the bits of
//! floats are whole numbers. Last, `unknown` has the fields of no slot: number, wire type and value, bytes in hexadecimal
//! digits. So every field and every unknown byte of a snapshot is in its form.
//!
//! The reference got fields after this form was first written. What stands under `unknown` of them in an older text, and
//! is of the wire type of its field, is read as the decoder reads it from bytes (`specs/Later.antt`).
//!
//! - `to_json` gives the form of a message. It holds no float, so its text is exact. `to_text` gives that text, and makes it
//!   piece by piece, as anyone can by `push_entity`, `push_header`, `push_unknown` and `push_end` (`specs/Pieces.antt`).
//! - `from_json` gives the message that a tree says, which is well formed, or the first fault of the tree with its path.
//!   A tree is walked in a fixed order: at an object its keys in byte order, then its fields in the order of the table of
//!   messages, and last its unknown fields.
//!
//! The form is one definition over the table of messages (`specs/Form.antt`), and so is reading (`specs/Unform.antt`).
//! `specs/Walk.antt` has the walk in words, as the list of its checks. Laws are functions that do nothing, whose contracts
//! are proved for all values and trees: what was written is read as the same message, and the fault that is named is the
//! first of the walk.
//!
//! What is said of every kind of message is one function over its table of slots, and a kind has an impl of `Form`. The
//! names of fields in it stand in the order of the table. The modules, from the bottom up:
//!
//! - `json_fault`: why a tree is no message
//! - `paths`: where, as the path from the root
//! - `reading`: numbers, texts and truth values from JSON, and what may or has to stand at a key
//! - `message`: any message, from JSON and to it; `three`: three messages and what stands behind them, at the end of an entity
//! - `writing`: the members of an object, one slot at a time
//! - `unknown`: unknown fields, from JSON and to it
//! - `later`: fields of later slots among unknown ones, moved to their slots
//! - `descriptors`, `translation`, `alert`, `vehicle_position`, `properties`, `trip_update`, `feed`: the kinds of message
//! - `snapshot`: a whole snapshot as JSON, and from it
//! - `text`: the text of a form
//! - `laws`: that nothing is lost, and what a first fault is
#![tactic(auto)]

mod alert;
mod descriptors;
mod feed;
mod json_fault;
mod later;
mod laws;
mod message;
mod paths;
mod properties;
mod reading;
mod snapshot;
mod text;
mod three;
mod translation;
mod trip_update;
mod unknown;
mod vehicle_position;
mod writing;

pub use json_fault::JsonFault;
pub use laws::{fault_is_first, form_reads_back, moved_as_taken, no_fault_is_found};
pub use message::{Form, array_from, item_from, needed_message, unknown_key};
pub use snapshot::{from_json, to_json};
pub use text::{push_end, push_entity, push_header, push_unknown, to_text};
pub use unknown::{UnknownItems, unknown_fields};

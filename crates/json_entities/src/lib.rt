//! The snapshot that a JSON text says, read entity by entity.
//!
//! `from_text` gives the message that a text says, which is well formed, or that it is no JSON, or the first fault of its tree with its path: what
//! `from_json` of feed_json says of the text's whole tree, which is never held (`specs/FromText.antt`). The text is read as a tree that borrows its strings; what
//! stands at the key of entities is set apart, each entity gets a whole tree by its own text and gives it up before the next, and the rest is read as one
//! whole tree (`specs/Parts.antt` has what each part says).
//!
//! The modules, from the bottom up:
//!
//! - `text_fault`: why a text is no snapshot
//! - `parts`: a text's tree, what stands at the key of entities by itself, and whole trees of parts
//! - `said`: what an array of messages says
//! - `items`: the messages of arrays, one after the other
//! - `text_reading`: the snapshot
#![tactic(auto)]

mod items;
mod parts;
mod said;
mod text_fault;
mod text_reading;

pub use text_fault::TextFault;
pub use text_reading::from_text;

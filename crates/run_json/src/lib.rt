//! The commands `show` and `encode`: from a snapshot to its form as JSON, and back.
//!
//! `specs/Reports.antt` says what each writes and answers.
//!
//! - `sending`: the form of a kept snapshot, sent piece by piece
//! - `showing`: the form of the snapshot in a file
//! - `json_input_fault`, `json_input`: the snapshot that a JSON file says, or why it isn't had
//! - `encoding`: the canonical bytes of the snapshot that a JSON file says
#![tactic(auto)]

mod encoding;
mod json_input;
mod json_input_fault;
mod sending;
mod showing;

pub use encoding::encode;
pub use showing::show;

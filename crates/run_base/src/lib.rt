//! What all commands have in common: how a run ends, what it tells of a fault, and how it reads a snapshot.
//!
//! `CarriesOut` of `specs/Carried.antt` is the one statement that each command makes, of its own report. So a command is a function
//! with this one clause, in a crate of its own that stands on this one.
//!
//! From the bottom up:
//! - `status` and `fault` are how a run ends, and why it stops before its end.
//! - `saying` writes to the error stream. `input_fault` is why an input isn't had, and tells it.
//! - `refused` has the text of a refused input, and writes the line of a refused snapshot.
//! - `sending` holds text back until it fills a piece.
//! - `snapshot_file` reads a snapshot, as a message or as its bytes.
#![tactic(auto)]

mod fault;
mod input_fault;
mod refused;
mod saying;
mod sending;
mod snapshot_file;
mod status;

pub use fault::Fault;
pub use input_fault::{InputFault, say_input_fault};
pub use refused::{put_refused, refused_text};
pub use saying::{say, say_fault, say_memory};
pub use sending::send_piece;
pub use snapshot_file::{read_kept, read_snapshot};
pub use status::Status;

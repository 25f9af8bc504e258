//! The command `predict`: the table of stop events of a snapshot.
//!
//! `specs/Predicted.antt` says what it writes and answers. It is a relation, since a zone is tied to its text or its bytes by one.
//!
//! - `zone_input_fault`, `zone_input`: the zone that words name, or why it isn't had
//! - `prediction`: the command, carried out
#![tactic(auto)]

mod prediction;
mod zone_input;
mod zone_input_fault;

pub use prediction::predict;

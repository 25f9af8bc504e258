//! `check` of one file: the report on a snapshot by itself, without an engine.
//!
//! `specs/Reports.antt` says what is written of an accepted snapshot, and what is answered. No more than one entity is held decoded, and
//! no more than one finding.
//!
//! - `sending`: findings as lines that are held back until they fill a piece
//! - `findings`: those of a snapshot, sent by all rules, one entity after the other
//! - `report`: the report on a snapshot that was accepted or refused
//! - `in_file`: that on the snapshot in a file, carried out
#![tactic(auto)]

mod findings;
mod in_file;
mod report;
mod sending;

pub use in_file::report_file;

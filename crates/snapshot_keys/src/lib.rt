//! A kept snapshot before any of its entities is decoded: which entity stands under which key, and the pairing rows of all.
//!
//! So a snapshot can be judged one entity after the other, and no more than one of them is held decoded. Ids are read from the
//! fields of an entity; what they are is what the decoded entity would hold.
//!
//! - `slot_ids`: what the slots of an entity hold
//! - `ids`: the ids by which a trip update and a vehicle position are paired
//! - `placing`: the entities under their keys, by their numbers
//! - `kept_rows`: a view of their pairing rows
//! - `rows`: how it is made
#![tactic(auto)]

mod ids;
mod kept_rows;
mod placing;
mod rows;
mod slot_ids;

pub use judging::{HeaderRules, Setting, finding_at, marks_at};
pub use kept_rows::KeptRows;
pub use placing::{EntityPlace, places};
pub use rows::rows_of;

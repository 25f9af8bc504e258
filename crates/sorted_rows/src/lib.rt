//! Pairing rows that are all known before the first ask: sorted lists of borrowed ids, in which an ask takes one or two binary
//! searches, however often an id comes again.
//!
//! - `row`: a pairing row of borrowed ids
//! - `by_key`: values under keys, as a sorted list
//! - `kind_rows`: the rows of one kind by their ids
//! - `sorted_rows`: those of both kinds
#![tactic(auto)]

mod by_key;
mod kind_rows;
mod row;
mod sorted_rows;

pub use row::Row;
pub use sorted_rows::SortedRows;

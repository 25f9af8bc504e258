//! The rows of the table of stop events, as CSV.
//!
//! `specs/Predictions.antt` says which fields each row has; `row_text` of csv's specs says which bytes that is.
//!
//! - `date_text`: dates as YYYYMMDD
//! - `prediction`: the header row, and the rows of what is predicted of a trip update
#![tactic(auto)]

mod date_text;
mod prediction;

pub use prediction::{prediction_head, prediction_rows};

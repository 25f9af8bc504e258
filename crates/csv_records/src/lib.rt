//! Records of a CSV file that is held in memory.
//!
//! `csv` reads fields as bytes. `Records` hands them out record by record, and its one error is want of memory: a file in
//! memory has no other fault. Contracts see the list of the records that are left, each a list of fields (RFC 4180,
//! section 2).
//!
//! `records` is that, and `text` reads a field as text.
#![tactic(auto)]

mod records;
mod text;

pub use records::Records;
pub use text::text_of;

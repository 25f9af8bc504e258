//! A field whose bytes come in pieces, a group among them.
//!
//! A field that ends too early may be whole once more bytes are there. `read_on` reads the field that begins at a place of the bytes so
//! far. Where that is a group, it goes on behind the front that was gone through before, so each byte of a group is gone through once,
//! however its bytes are cut; and its answer is what these bytes say, whatever came before. A field that is no group is read from
//! its start: of its tag and its length at most twenty bytes are read again, and none of its payload.
//!
//! Which faults more bytes may mend, and that all others stay, and that a front stays one, are the contracts of the functions in
//! `laws`. (Protocol Buffers, Encoding, "Message Structure", "Groups".)
//!
//! - `front`: a group that was gone through as far as its bytes came
//! - `reading_on`: the field at a place, read on
//! - `laws`: what stays when more bytes come
#![tactic(auto)]

mod front;
mod laws;
mod reading_on;

pub use front::Front;
pub use laws::{fault_stays, front_stays};
pub use reading_on::{FieldSoFar, read_on};

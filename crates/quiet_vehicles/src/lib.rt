//! Where rules break at an entity, found without judging most vehicle positions.
//!
//! A feed of vehicles has thousands of them, and rules break at few. `quiet` looks at an entity's own fields, at the header's
//! timestamp and at the pairing rows, and says of most that no rule breaks there; `marking` has all rules judged at the others. The
//! findings are the same (`specs/Quiet.antt` says what was seen).
#![tactic(auto)]

mod clock;
mod fields;
mod marking;
mod quiet;

pub use marking::marks_of;

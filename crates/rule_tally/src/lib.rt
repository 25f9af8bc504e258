//! What the lines of a report come to for one rule.
//!
//! A line tells of its rule at a place: that it breaks there (`finding`), that it came to break (`opened`) or breaks no more (`closed`).
//! A [`Tally`] takes such lines one by one. `specs/Tallies.antt` says what it is of a list of them; its memory grows with the places that
//! opened, and not with the lines of a `check` report.
//!
//! - `counting`: one more
//! - `telling`: what a line tells of its rule
//! - `names`: names, each once, with a mark
//! - `first_line`: the first line of a rule, and what it stands behind
//! - `tally`: the lines of one rule
//! - `laws`: laws of the definitions
#![tactic(auto)]

mod counting;
mod first_line;
mod laws;
mod names;
mod tally;
mod telling;

pub use counting::one_more;
pub use first_line::{Behind, FirstLine};
pub use laws::names_have_their_last_mark;
pub use names::Names;
pub use tally::Tally;
pub use telling::Telling;

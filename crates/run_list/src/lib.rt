//! The rows of the list that `follow` reads: snapshots, and timetables that take the place of the one before them.
//!
//! `specs/Listed.antt` says what rows give: their lines, the timetable, history and numbered findings after them, whether an error was told, and how
//! much is decoded and tested for them. A law says that numbers are those since when rules stand as long as no timetable came.
//!
//! - `stop`: why rows aren't followed to their end
//! - `exchanging`: the row of a timetable
//! - `row`: one row
//! - `rows`: all of them
//! - `laws`: what is said of the numbers
#![tactic(auto)]

mod exchanging;
mod laws;
mod row;
mod rows;
mod stop;

pub use laws::numbers_are_since;
pub use rows::follow_rows;
pub use stop::{Stop, say_stop};

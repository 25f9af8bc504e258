//! Snapshots that are taken one after the other, as `follow`, `check` of several files and `alerts` take them.
//!
//! `specs/Rows.antt` says what rows give: their lines, the history after them, and whether an error was told. `specs/Files.antt` says so
//! of files, behind whose lines a command writes an ending of its own.
//!
//! - `telling`: what is told of an accepted snapshot
//! - `row_lines`: the lines of a row, those of what opened and closed not spelled yet
//! - `sending`: they are written, piece by piece
//! - `row`: one row's snapshot, put into the engine
//! - `rows`: all of them
//! - `files`: the snapshots of files, each of a feed of its own
#![tactic(auto)]

mod files;
mod row;
mod row_lines;
mod rows;
mod sending;
mod telling;

pub use files::take_files;
pub use follow_engine::{Delta, Engine};
pub use row::{RowEnd, take_row};
pub use row_lines::RowLines;
pub use rows::{RowFault, RowsEnd, either, follow_rows, say_row_fault};
pub use sending::put_lines;
pub use telling::Telling;

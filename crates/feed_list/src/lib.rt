//! The list of snapshots that are followed: which come in which order, of which feed, and at which moment; and where among them
//! a new timetable is published.
//!
//! A list is a CSV file without a header row. Each row has three fields. A snapshot's are the feed, a number from 0 to 15; the
//! moment at which the snapshot came, as POSIX time in seconds; and the path of the snapshot's file. A timetable's are the word
//! `timetable`, an empty field, and the path of the timetable's folder. `read_list` reads a list whole, or answers its first fault:
//! the file isn't there; it is too large, in bytes or in rows; or the first row that isn't a row of a list, with its number from 1
//! and, where a field is to blame, the column.
//!
//! From the bottom up: `column` and `fault` are what faults are made of, `feed` reads the number of a feed, `row` a row, `rows` all
//! rows of a file in memory, and `list` the file. `laws` says what a list holds in words of its rows. Numbers and paths are read as
//! the words of a command line are, by `rt_words`.
#![tactic(auto)]

mod column;
mod fault;
mod feed;
mod laws;
mod list;
mod row;
mod rows;

pub use column::Column;
pub use fault::ListFault;
pub use laws::list_follows_its_rows;
pub use list::read_list;
pub use row::{ListRow, SnapshotRow};
pub use rt_words::{is_path, number_of};

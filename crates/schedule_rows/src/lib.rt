//! Rows of the files of the GTFS Schedule, each by itself.
//!
//! A row of a file is read by `Item::read`: its cells are found by the names in the header row, read in the order of the
//! file's columns, and put into a `Row`, which is an id and what the file says of it; or its first cell that is no text
//! or no value is answered. Nothing is said here of other rows, nor of where a file comes from.
//!
//! From the bottom up: `column` and `file` name what is read, and `cell_fault` says what is wrong with a row; `field` finds
//! a field and takes its blanks off, `header` knows where each column stands, and `cells` reads what stands in a column,
//! as an `id` or as a `value`: `flag`, `change`, `location_type`, `sequence`, `headway`, `time`. `optional_time` is a time
//! that may be missing, and `shared_ids` are ids that many rows have. `row` is a row of any file, and each file has its own:
//! `agency`, `stop`, `route`, `trip`, `visit` (of stop_times.txt), `service_row` (of calendar.txt), `exception` (of
//! calendar_dates.txt) and `frequency`.
#![tactic(auto)]

mod agency;
mod cell_fault;
mod cells;
mod change;
mod column;
mod exception;
mod field;
mod file;
mod flag;
mod frequency;
mod header;
mod headway;
mod id;
mod location_type;
mod optional_time;
mod route;
mod row;
mod sequence;
mod service_row;
mod shared_ids;
mod stop;
mod time;
mod trip;
mod value;
mod visit;

pub use agency::Agency;
pub use cell_fault::CellFault;
pub use cells::Cells;
pub use column::Column;
pub use exception::Exception;
pub use file::File;
pub use frequency::Frequency;
pub use header::Header;
pub use id::Id;
pub use optional_time::OptionalTime;
pub use route::Route;
pub use row::{Item, Row};
pub use service_row::ServiceRow;
pub use shared_ids::{SharedId, SharedIds};
pub use stop::Stop;
pub use trip::Trip;
pub use value::Value;
pub use visit::Visit;

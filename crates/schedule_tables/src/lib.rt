//! Tables of the files of the GTFS Schedule: finite maps from ids to what their rows say.
//!
//! A file's rows are put one after the other into a table, up to the first fault of the file. Reading is written once: a
//! `Group` is what stands under one id, and what a further row of the same id does there; `Grouped` is a table of groups.
//! Trips and stop times have tables of their own while they are read, since they are many. `Source::load` reads one table
//! from a folder, or a pair of them one after the other.
//!
//! From the bottom up: `fault` is what is wrong with a file; `grouped` holds groups by id, and `numbered` by number;
//! `exceptions` and `frequencies` are groups; `trips` are the trips while they are read; `stop_ids` numbers the stops that
//! stop times have, `stop_time` is one stop time, `trip_times` those of a trip by rising sequence and `stop_times` those of
//! all trips, as `visits` leaves them: it reads them in any order, `trip_rows` for each trip, with `late_times` for those
//! behind greater ones. `table` reads a file that is held in memory, and `folder` the files of a folder. `laws` says what
//! the tables hold in words of their rows.
#![tactic(auto)]

mod exceptions;
mod fault;
mod folder;
mod frequencies;
mod grouped;
mod late_times;
mod laws;
mod numbered;
mod stop_ids;
mod stop_time;
mod stop_times;
mod table;
mod trip_rows;
mod trip_times;
mod trips;
mod visits;

pub use exceptions::Exceptions;
pub use fault::LoadFault;
pub use folder::{Folder, Source};
pub use frequencies::Frequencies;
pub use grouped::{Group, Grouped, Only};
pub use laws::tables_follow_their_rows;
pub use numbered::Numbered;
pub use stop_ids::StopIds;
pub use stop_time::StopTime;
pub use stop_times::StopTimes;
pub use trip_times::{TripTimes, place_of_sequence};
pub use trips::Trips;

//! Timetables of the GTFS Schedule: the tables of eight files, and what is looked up in them.
//!
//! `Timetable::load` reads the eight files of a folder and answers their tables or their first fault, by file, row and
//! column. Look-ups take no memory. Rows are read by `schedule_rows` and put into tables by `schedule_tables`; the types of
//! these that a look-up or a fault speaks of are named here too.
//!
//! From the bottom up: `kinds` finds the location types of the stops of stop times, `twice` the trips that visit a stop
//! twice, and `timetable` is the whole. `laws` says of those trips what their stop times are.
#![tactic(auto)]

mod kinds;
mod laws;
mod timetable;
mod twice;

pub use laws::visits_twice_follows_its_stops;
pub use schedule_rows::{Column, Exception, File, Frequency, OptionalTime, ServiceRow, Stop, Trip};
pub use schedule_tables::{
    LoadFault, Only, StopTime, TripTimes, place_of_sequence, tables_follow_their_rows,
};
pub use timetable::{ServiceNo, Timetable, TripNo};

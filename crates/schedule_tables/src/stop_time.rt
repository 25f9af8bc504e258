//! A stop time.

use schedule_rows::OptionalTime;

/// When a trip stops where. (GTFS Schedule Reference, "stop_times.txt".)
///
/// `stop` is a number of the timetable that holds the stop time: see `Timetable::stop_text`. Times are
/// missing where they are left blank.
#[derive(Clone, Copy)]
pub struct StopTime {
    pub sequence: u32,
    pub stop: u32,
    pub arrival: OptionalTime,
    pub departure: OptionalTime,
}

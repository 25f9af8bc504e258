//! The first given time of a trip, and its shift.
ghost use Rattle.std.specs.Prelude.{◌≡◌, pos, option_and_then, option_copied, option_map};
ghost use Rattle.timetable.specs.Lookups.{IsTrip, IsTripOf, tables_in};
ghost use Rattle.timetable.specs.Maps.{Text};
ghost use Rattle.trip_calendar.specs.Trips.{first_given, first_time, shift_by, shift_of, time_by};
ghost use Rattle.rt_day.specs.Time.{time_of};

use feed_values::{Text as FeedText, TripDescriptor};
use rt_day::parse_time;
use timetable::{Frequency, StopTime, Timetable, TripNo};

/// The first given time of a trip, in seconds from the origin of its service day: of the arrivals and departures in their
/// order. None where none is given.
pub fn first_time(table: &Timetable, trip: TripNo) -> Option<u32>
    requires { IsTrip table.now trip }
    ensures { (id : Text) → IsTripOf table.now trip id → result ≡ first_time (tables_in table.now) id }
{
    first_given(table.stop_times(trip))
}

fn first_given(times: &[StopTime]) -> Option<u32>
    ensures { result ≡ first_given times.now }
{
    for time in times {
        let given = time.arrival.get().or(time.departure.get());
        if given.is_some() {
            return given;
        }
    }
    None
}

/// How much later than in stop_times.txt a trip runs, in seconds; it may be negative. It is 0 for a trip without frequencies,
/// and None for one with frequencies whose descriptor gives no start_time that is a time.
pub fn shift(table: &Timetable, trip: TripNo, descriptor: &TripDescriptor) -> Option<i64>
    requires { IsTrip table.now trip }
    ensures { (id : Text) → IsTripOf table.now trip id
        → result ≡ shift_of (tables_in table.now) id descriptor.now.start_time }
{
    let start = start_time(descriptor.start_time.as_ref());
    shift_by(table.frequencies(trip), start, first_time(table, trip))
}

/// The time that a start_time writes.
pub(crate) fn start_time(text: Option<&FeedText>) -> Option<u32>
    ensures { result ≡ option_and_then time_of (option_copied text.entry) }
{
    match text {
        Some(text) => parse_time(text.as_str()),
        None => None,
    }
}

// The shift by the frequencies of a trip, its start and its first given time.
fn shift_by(frequencies: &[Frequency], start: Option<u32>, first: Option<u32>) -> Option<i64>
    ensures { result ≡ shift_by frequencies.now start first }
{
    if frequencies.is_empty() {
        return Some(0);
    }
    match (start, first) {
        (None, _) => None,
        (Some(_), None) => Some(0),
        (Some(start), Some(first)) => Some(start as i64 - first as i64),
    }
}

/// The first given time of a trip, as late as it runs: a trip of frequencies begins at its start.
pub(crate) fn first_run(
    frequencies: &[Frequency],
    start: Option<u32>,
    first: Option<u32>,
) -> Option<u32>
    ensures { option_map pos result ≡ time_by first (shift_by frequencies.now start first) }
{
    match (first, frequencies.is_empty()) {
        (None, _) => None,
        (Some(first), true) => Some(first),
        (Some(_), false) => start,
    }
}

//! Asks of a trip of a timetable.

ghost use Rattle.timetable.specs.Lookups.{IsService, IsStop, IsTrip};

use cases::{say, say_some, word};
use rt_day::Day;
use std::alloc::{AllocError, Global};
use timetable::{Frequency, ServiceNo, StopTime, Timetable, TripNo};

// Puts a blank and a number, or `none`, behind a line.
fn push_number(alloc: Global, line: &mut String, value: Option<u32>) -> Result<(), AllocError> {
    match value {
        Some(value) => line.push_str(format!(in alloc; " {value}")?.as_str()),
        None => line.push_str(" none"),
    }
}

fn say_time(
    alloc: Global,
    table: &Timetable,
    time: &StopTime,
    out: &mut Vec<u8>,
) -> Result<(), AllocError>
    requires { IsStop table.now time.now.stop }
{
    let stop = table.stop_text(time.stop);
    let mut line = format!(in alloc; "{} {stop}", time.sequence)?;
    push_number(alloc, &mut line, time.arrival.get())?;
    push_number(alloc, &mut line, time.departure.get())?;
    push_number(alloc, &mut line, table.kind_of_stop(time.stop))?;
    say(out, line.as_str())
}

fn say_times(
    alloc: Global,
    table: &Timetable,
    trip: TripNo,
    out: &mut Vec<u8>,
) -> Result<(), AllocError>
    requires { IsTrip table.now trip }
{
    let times = table.stop_times(trip);
    for at in 0..times.len() {
        say_time(alloc, table, &times[at], out)?;
    }
    Ok(())
}

fn say_time_at(
    alloc: Global,
    table: &Timetable,
    trip: TripNo,
    sequence: u32,
    out: &mut Vec<u8>,
) -> Result<(), AllocError>
    requires { IsTrip table.now trip }
{
    match table.stop_time(trip, sequence) {
        Some(time) => say_time(alloc, table, time, out),
        None => say(out, "none"),
    }
}

fn say_trip(
    alloc: Global,
    table: &Timetable,
    trip: TripNo,
    out: &mut Vec<u8>,
) -> Result<(), AllocError>
    requires { IsTrip table.now trip }
{
    let mut line = String::from_str(alloc, table.route_of(trip))?;
    push_number(alloc, &mut line, table.direction_of(trip))?;
    line.push_str(if table.visits_twice(trip) {
        " twice"
    } else {
        " once"
    })?;
    say(out, line.as_str())
}

fn say_frequency(alloc: Global, it: &Frequency, out: &mut Vec<u8>) -> Result<(), AllocError> {
    let exactness = if it.exact { "exact" } else { "inexact" };
    let line = format!(in alloc; "{} {} {} {exactness}", it.start, it.end, it.headway)?;
    say(out, line.as_str())
}

fn say_frequencies(
    alloc: Global,
    table: &Timetable,
    trip: TripNo,
    out: &mut Vec<u8>,
) -> Result<(), AllocError>
    requires { IsTrip table.now trip }
{
    let frequencies = table.frequencies(trip);
    say_some(alloc, out, Some(frequencies.len()))?;
    for frequency in frequencies {
        say_frequency(alloc, frequency, out)?;
    }
    Ok(())
}

fn say_calendar(
    alloc: Global,
    table: &Timetable,
    service: ServiceNo,
    out: &mut Vec<u8>,
) -> Result<(), AllocError>
    requires { IsService table.now service }
{
    let Some(row) = table.calendar(service) else {
        return say(out, "none");
    };
    let (first, last) = (row.first.number, row.last.number);
    let line = format!(in alloc; "{} {first} {last}", row.weekdays)?;
    say(out, line.as_str())
}

fn say_exception(
    table: &Timetable,
    service: ServiceNo,
    number: i32,
    out: &mut Vec<u8>,
) -> Result<(), AllocError>
    requires { IsService table.now service }
{
    match table.exception(service, Day { number }) {
        Some(true) => say(out, "added"),
        Some(false) => say(out, "removed"),
        None => say(out, "none"),
    }
}

/// Answers `trip ID`, `times ID`, `time-at ID SEQUENCE`, `frequencies ID`, `calendar ID` and `exception ID DAY`.
pub fn answer(
    alloc: Global,
    table: &Timetable,
    words: &[String],
    out: &mut Vec<u8>,
) -> Result<(), AllocError> {
    let Some(trip) = table.trip(word(words, 1)) else {
        return say(out, "no such trip");
    };
    match word(words, 0) {
        "trip" => say_trip(alloc, table, trip, out),
        "times" => say_times(alloc, table, trip, out),
        "time-at" => {
            let sequence = word(words, 2).parse().unwrap_or(0);
            say_time_at(alloc, table, trip, sequence, out)
        }
        "frequencies" => say_frequencies(alloc, table, trip, out),
        "calendar" => say_calendar(alloc, table, table.service_of(trip), out),
        "exception" => {
            let number = word(words, 2).parse().unwrap_or(0);
            say_exception(table, table.service_of(trip), number, out)
        }
        _ => say(out, "no such ask"),
    }
}

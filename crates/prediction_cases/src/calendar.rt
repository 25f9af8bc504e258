//! Asks of the days and times of a trip.

use crate::keyed::text_at;
use crate::updates::descriptor;
use cases::{number, say, say_some, say_whether, word};
use rt_day::Day;
use std::alloc::{AllocError, Global};
use timetable::Timetable;
use trip_calendar::{Zone, first_time, runs_on, service_day, shift};

// Answers what is asked of a trip of the timetable.
fn answer_trip(
    alloc: Global,
    table: &Timetable,
    words: &[String],
    out: &mut Vec<u8>,
) -> Result<(), AllocError> {
    let Some(trip) = table.trip(text_at(words, "trip").unwrap_or("")) else {
        return say(out, "no such trip");
    };
    match word(words, 0) {
        "runs" => {
            let number = word(words, 1).parse().unwrap_or(0);
            say_whether(out, runs_on(table, table.service_of(trip), Day { number }))
        }
        "first-time" => say_some(alloc, out, first_time(table, trip)),
        _ => {
            let given = descriptor(alloc, words)?;
            say_some(alloc, out, shift(table, trip, &given))
        }
    }
}

/// Answers `runs DAY trip ID`, `first-time trip ID`, `shift trip ID ..` and `service-day MOMENT trip ID ..`.
pub fn answer(
    alloc: Global,
    table: &Timetable,
    zone: &Zone,
    words: &[String],
    out: &mut Vec<u8>,
) -> Result<bool, AllocError> {
    match word(words, 0) {
        "runs" | "first-time" | "shift" => answer_trip(alloc, table, words, out)?,
        "service-day" => {
            let given = descriptor(alloc, words)?;
            let day = service_day(alloc, table, zone, &given, number(words, 1))?;
            say_some(alloc, out, day.map(|day| day.number))?;
        }
        _ => return Ok(false),
    }
    Ok(true)
}

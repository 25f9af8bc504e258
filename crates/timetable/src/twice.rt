//! Trips that visit a stop twice.

ghost use Rattle.std.specs.Prelude.{◌≡◌, [], IfOk};
ghost use Rattle.timetable.specs.Timetables.{KnowsTwice, returns_to, trip_times, visits_twice};

use schedule_rows::Trip;
use schedule_tables::{Numbered, Only, StopTime, StopTimes};
use std::alloc::{AllocError, Global};
use std::collections::HashSet;

/// Whether some stop time has the stop of one before it.
fn returns_to_a_stop(alloc: Global, times: &[StopTime]) -> Result<bool, AllocError>
    ensures { IfOk result (λ twice. twice ≡ returns_to [] times.now) }
{
    let mut seen = HashSet::new(alloc);
    for time in times {
        if !seen.insert(time.stop)? {
            return Ok(true);
        }
    }
    Ok(false)
}

/// Whether a trip visits some stop twice.
fn visits_twice(alloc: Global, times: &StopTimes, id: &str) -> Result<bool, AllocError>
    ensures { IfOk result (λ twice. twice ≡ visits_twice (trip_times times.now id.now)) }
{
    match times.get(id) {
        Some(trip) => returns_to_a_stop(alloc, trip.as_slice()),
        None => Ok(false),
    }
}

/// For each trip, by number, whether it visits some stop twice.
pub(crate) fn trips_that_return(
    alloc: Global,
    trips: &Numbered<Only<Trip>>,
    times: &StopTimes,
) -> Result<Vec<bool>, AllocError>
    ensures { IfOk result (λ twice. KnowsTwice trips.now times.now twice.items) }
{
    let mut twice = Vec::new(alloc);
    for number in 0..trips.len() {
        let returns = visits_twice(alloc, times, trips.id(number))?;
        twice.push(returns)?;
    }
    Ok(twice)
}

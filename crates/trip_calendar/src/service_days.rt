//! The service day of a trip.
ghost use Rattle.std.specs.Prelude.{◌≡◌, ◌≤◌, pos, negsuc, ◌+ℤ◌, ◌-ℤ◌, unsigned_abs, true, is_some, IfOk, option_map};
ghost use Rattle.std.specs.FinMap.{get};
ghost use Rattle.jiff_core.specs.Calendar.{IsBetween};
ghost use Rattle.timetable.specs.Lookups.{IsService, IsServiceOf, IsTrip, IsTripOf, tables_in};
ghost use Rattle.timetable.specs.Maps.{Text};
ghost use Rattle.trip_calendar.specs.ServiceDays.{IsCandidate, IsDated, IsDayOfRow, IsNearest, IsNearestAround, IsServiceDay};
ghost use Rattle.trip_calendar.specs.Zones.{IsLocalDay, zone_of};

use crate::candidate::{Candidate, nearer};
use crate::origins::{local_day, origin};
use crate::services::runs_on;
use crate::trips::{first_run, first_time, start_time};
use crate::zone::Zone;
use feed_values::TripDescriptor;
use rt_day::{Day, parse_date, year_in_range};
use std::alloc::{AllocError, Global};
use timetable::{ServiceNo, Timetable, TripNo};

/// The service day of a trip descriptor at a moment, in POSIX seconds.
///
/// A start_date decides: it is that day, or none where the text is no date or the day has no origin. Without one it is the
/// day, among the local date of the moment and the days before and after it, on which the service runs and on which the
/// trip's first given time is nearest to the moment, the earlier where two are equally near. None also where the trip isn't
/// in trips.txt, gives no time or has no shift, and where the moment has no local date.
pub fn service_day(
    alloc: Global,
    table: &Timetable,
    zone: &Zone,
    descriptor: &TripDescriptor,
    moment: u64,
) -> Result<Option<Day>, AllocError>
    ensures { IfOk result (λ found. IsServiceDay (tables_in table.now) (zone_of zone.now) descriptor.now moment
        (option_map (λ day. day.number) found)) }
{
    match &descriptor.trip_id {
        Some(id) => day_of_id(alloc, table, zone, id.as_str(), descriptor, moment),
        None => Ok(None),
    }
}

// The service day of a trip with this id.
fn day_of_id(
    alloc: Global,
    table: &Timetable,
    zone: &Zone,
    id: &str,
    descriptor: &TripDescriptor,
    moment: u64,
) -> Result<Option<Day>, AllocError>
    ensures { IfOk result (λ found. IsDayOfRow (tables_in table.now) (zone_of zone.now) descriptor.now moment id.now
        (get (tables_in table.now).trips id.now) (option_map (λ day. day.number) found)) }
{
    match table.trip(id) {
        Some(trip) => day_of_trip(alloc, table, zone, trip, descriptor, moment),
        None => Ok(None),
    }
}

// The service day of a trip of trips.txt.
fn day_of_trip(
    alloc: Global,
    table: &Timetable,
    zone: &Zone,
    trip: TripNo,
    descriptor: &TripDescriptor,
    moment: u64,
) -> Result<Option<Day>, AllocError>
    requires { IsTrip table.now trip }
    ensures { (id : Text) → IsTripOf table.now trip id
        → is_some (get (tables_in table.now).trips id) ≡ true → IfOk result (λ found.
        IsDayOfRow (tables_in table.now) (zone_of zone.now) descriptor.now moment id
        (get (tables_in table.now).trips id) (option_map (λ day. day.number) found)) }
{
    match &descriptor.start_date {
        Some(date) => Ok(dated(date.as_str())),
        None => {
            let start = start_time(descriptor.start_time.as_ref());
            let time = first_run(table.frequencies(trip), start, first_time(table, trip));
            nearest(alloc, table, zone, table.service_of(trip), time, moment)
        }
    }
}

// The day that a start_date writes, where it is a date with an origin.
fn dated(text: &str) -> Option<Day>
    ensures { IsDated text.now (option_map (λ day. day.number) result) }
{
    let day = parse_date(text)?;
    if year_in_range(day) { Some(day) } else { None }
}

// The nearest day, where a first time is there and the moment has a local date.
fn nearest(
    alloc: Global,
    table: &Timetable,
    zone: &Zone,
    service: ServiceNo,
    time: Option<u32>,
    moment: u64,
) -> Result<Option<Day>, AllocError>
    requires { IsService table.now service }
    ensures { (id : Text) → IsServiceOf table.now service id → IfOk result (λ found.
        IsNearest (tables_in table.now) (zone_of zone.now) id moment (option_map pos time)
        (option_map (λ day. day.number) found)) }
{
    let Some(time) = time else {
        return Ok(None);
    };
    match local_day(alloc, zone, moment)? {
        Some(date) => nearest_around(alloc, table, zone, service, date, time, moment),
        None => Ok(None),
    }
}

// The nearest of the day before a date, the date and the day after it.
fn nearest_around(
    alloc: Global,
    table: &Timetable,
    zone: &Zone,
    service: ServiceNo,
    date: Day,
    time: u32,
    moment: u64,
) -> Result<Option<Day>, AllocError>
    requires service { IsService table.now service }
    requires date { IsLocalDay (zone_of zone.now) moment date.number }
    requires bounded { IsBetween (negsuc 4_999_999) (pos 5_000_000) date.number }
    requires moment { moment ≤ 250_000_000_000 }
    ensures { (id : Text) → IsServiceOf table.now service id → IfOk result (λ found.
        IsNearestAround (tables_in table.now) (zone_of zone.now) id (pos time) moment
        (option_map (λ day. day.number) found)) }
{
    let before = candidate(alloc, table, zone, service, day_before(date), time, moment)?;
    let same = candidate(alloc, table, zone, service, date, time, moment)?;
    let after = candidate(alloc, table, zone, service, day_after(date), time, moment)?;
    match nearer(nearer(before, same), after) {
        Some(candidate) => Ok(Some(candidate.day)),
        None => Ok(None),
    }
}

fn day_before(day: Day) -> Day
    requires { IsBetween (negsuc 4_999_999) (pos 5_000_000) day.number }
    ensures { result.number ≡ day.number -ℤ pos 1 }
{
    Day {
        number: day.number - 1,
    }
}

fn day_after(day: Day) -> Day
    requires { IsBetween (negsuc 4_999_999) (pos 5_000_000) day.number }
    ensures { result.number ≡ day.number +ℤ pos 1 }
{
    Day {
        number: day.number + 1,
    }
}

// How far a time of a day with this origin is from a moment, in seconds.
fn distance(origin: i64, time: u32, moment: u64) -> u64
    requires origin { IsBetween (negsuc 399_999_999_999) (pos 400_000_000_000) origin }
    requires moment { moment ≤ 250_000_000_000 }
    ensures { result ≡ unsigned_abs (origin +ℤ pos time -ℤ pos moment) }
{
    (origin + time as i64 - moment as i64).unsigned_abs()
}

// The day as a candidate, where it has an origin and the service runs on it.
fn candidate(
    alloc: Global,
    table: &Timetable,
    zone: &Zone,
    service: ServiceNo,
    day: Day,
    time: u32,
    moment: u64,
) -> Result<Option<Candidate>, AllocError>
    requires service { IsService table.now service }
    requires moment { moment ≤ 250_000_000_000 }
    ensures { (id : Text) → IsServiceOf table.now service id → IfOk result
        (IsCandidate (tables_in table.now) (zone_of zone.now) id (pos time) moment day.number) }
{
    if !runs_on(table, service, day) {
        return Ok(None);
    }
    match origin(alloc, zone, day)? {
        Some(origin) => Ok(Some(Candidate {
            day,
            distance: distance(origin, time, moment),
        })),
        None => Ok(None),
    }
}

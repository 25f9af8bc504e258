//! What a timetable answers. Nothing here takes memory.
ghost use Rattle.std.specs.Prelude.{◌≡◌, ◌&&◌, IfSome, Some, is_some, option_and_then, option_copied, slice_get};
ghost use Rattle.rt_day.specs.Time.{time_of};
ghost use Rattle.std.specs.Option.{option_map};
ghost use Rattle.std.specs.List.{list_any};
ghost use Rattle.feed_values.specs.Cells.{cell_value};
ghost use Rattle.timetable.specs.Lookups.{IsStop, tables_in};
ghost use Rattle.timetable.specs.Timetables.{visits_twice};
ghost use Rattle.rule_table.specs.Asked.{ask_value};
ghost use Rattle.rule_history.specs.Answered.{tables_of, timetable_answer, trip_known, trip_row, frequencies_of, exact_number, is_start, is_on_grid, times_of, first_time, time_at, stop_at};

use feed_values::{CellRef, text_cell};
use rt_day::parse_time;
use rule_table::{AskRef, number_cell, truth_cell};
use timetable::{Frequency, StopTime, Timetable};

fn is_known(table: &Timetable, trip: &str) -> bool
    ensures { result ≡ trip_known (tables_in table.now) trip.now }
{
    table.trip(trip).is_some()
}

fn route<'a>(table: &'a Timetable, trip: &str) -> Option<&'a str>
    ensures { option_copied result ≡ option_map (λ row. row.route) (trip_row (tables_in table.now) trip.now) }
{
    match table.trip(trip) {
        Some(number) => Some(table.route_of(number)),
        None => None,
    }
}

fn direction(table: &Timetable, trip: &str) -> Option<u32>
    ensures { result ≡ option_and_then (λ row. row.direction) (trip_row (tables_in table.now) trip.now) }
{
    match table.trip(trip) {
        Some(number) => table.direction_of(number),
        None => None,
    }
}

fn frequencies<'a>(table: &'a Timetable, trip: &str) -> &'a [Frequency]
    ensures { result.now ≡ frequencies_of (tables_in table.now) trip.now }
{
    // Most timetables have none.
    if !table.has_frequencies() {
        return &[];
    }
    match table.trip(trip) {
        Some(number) => table.frequencies(number),
        None => &[],
    }
}

/// The exact_times of a trip's first row, 1 or 0.
fn exact(table: &Timetable, trip: &str) -> Option<u32>
    ensures { result ≡ option_map exact_number (slice_get (frequencies_of (tables_in table.now) trip.now) 0) }
{
    match frequencies(table, trip).first() {
        Some(first) => Some(first.exact as u32),
        None => None,
    }
}

fn starts_at(frequency: &Frequency, time: u32) -> bool
    ensures { result ≡ is_start time frequency.now }
{
    1 <= frequency.headway
        && frequency.start <= time
        && time <= frequency.end
        && (time - frequency.start) % frequency.headway == 0
}

fn any_starts_at(rows: &[Frequency], time: u32) -> bool
    ensures { result ≡ list_any (is_start time) rows.now }
{
    rows.iter().any(|frequency| starts_at(frequency, time))
}

fn is_on_grid(table: &Timetable, trip: &str, text: &str) -> bool
    ensures { result ≡ is_on_grid (frequencies_of (tables_in table.now) trip.now) (time_of text.now) }
{
    match parse_time(text) {
        Some(time) => any_starts_at(frequencies(table, trip), time),
        None => false,
    }
}

fn returns(table: &Timetable, trip: &str) -> bool
    ensures { result ≡ (trip_known (tables_in table.now) trip.now && visits_twice (times_of (tables_in table.now) trip.now)) }
{
    match table.trip(trip) {
        Some(number) => table.visits_twice(number),
        None => false,
    }
}

/// The stop time of a trip's lowest stop_sequence.
fn first_stop<'a>(table: &'a Timetable, trip: &str) -> Option<&'a StopTime>
    ensures { option_copied result ≡ first_time (tables_in table.now) trip.now }
{
    match table.trip(trip) {
        Some(number) => table.stop_times(number).first(),
        None => None,
    }
}

fn first_arrival(table: &Timetable, trip: &str) -> Option<u32>
    ensures { result ≡ option_and_then (λ time. time.arrival) (first_time (tables_in table.now) trip.now) }
{
    match first_stop(table, trip) {
        Some(time) => time.arrival.get(),
        None => None,
    }
}

fn stop_time<'a>(table: &'a Timetable, trip: &str, sequence: u32) -> Option<&'a StopTime>
    ensures time { option_copied result ≡ time_at (tables_in table.now) trip.now sequence }
    ensures stop { IfSome result (λ time. IsStop table.now time.now.stop) }
{
    match table.trip(trip) {
        Some(number) => table.stop_time(number, sequence),
        None => None,
    }
}

fn stop<'a>(table: &'a Timetable, trip: &str, sequence: u32) -> Option<&'a str>
    ensures { option_copied result ≡ stop_at (tables_in table.now) trip.now sequence }
{
    match stop_time(table, trip, sequence) {
        Some(time) => Some(table.stop_text(time.stop)),
        None => None,
    }
}

fn arrival(table: &Timetable, trip: &str, sequence: u32) -> Option<u32>
    ensures { result ≡ option_and_then (λ time. time.arrival) (time_at (tables_in table.now) trip.now sequence) }
{
    match stop_time(table, trip, sequence) {
        Some(time) => time.arrival.get(),
        None => None,
    }
}

fn departure(table: &Timetable, trip: &str, sequence: u32) -> Option<u32>
    ensures { result ≡ option_and_then (λ time. time.departure) (time_at (tables_in table.now) trip.now sequence) }
{
    match stop_time(table, trip, sequence) {
        Some(time) => time.departure.get(),
        None => None,
    }
}

/// What a timetable answers to an ask; nothing where it is absent.
pub fn table_answer<'a>(table: &'a Timetable, ask: AskRef<'_>) -> Option<CellRef<'a>>
    ensures { option_map cell_value result ≡ timetable_answer (tables_of table.now) (ask_value ask.entry) }
{
    if !table.is_present() {
        return None;
    }
    match ask {
        AskRef::TripKnown(trip) => Some(truth_cell(is_known(table, trip))),
        AskRef::RouteKnown(route) => Some(truth_cell(table.has_route(route))),
        AskRef::AgencyKnown(agency) => Some(truth_cell(table.has_agency(agency))),
        AskRef::StopKind(stop) => Some(number_cell(table.stop_kind(stop))),
        AskRef::TripRoute(trip) => Some(text_cell(route(table, trip))),
        AskRef::TripDirection(trip) => Some(number_cell(direction(table, trip))),
        AskRef::TripExact(trip) => Some(number_cell(exact(table, trip))),
        AskRef::OnGrid(trip, time) => Some(truth_cell(is_on_grid(table, trip, time))),
        AskRef::VisitsTwice(trip) => Some(truth_cell(returns(table, trip))),
        AskRef::FirstArrival(trip) => Some(number_cell(first_arrival(table, trip))),
        AskRef::StopAt(trip, n) => Some(text_cell(stop(table, trip, n))),
        AskRef::ArrivalAt(trip, n) => Some(number_cell(arrival(table, trip, n))),
        AskRef::DepartureAt(trip, n) => Some(number_cell(departure(table, trip, n))),
        _ => None,
    }
}

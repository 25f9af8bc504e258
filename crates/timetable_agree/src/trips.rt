//! Whether two timetables say the same of a trip.
ghost use Rattle.std.specs.Prelude.{◌≡◌, All};
ghost use Rattle.std.specs.Cmp.Lexicographic.{pointwise};
ghost use Rattle.timetable.specs.Maps.{Text};
ghost use Rattle.timetable.specs.Lookups.{IsStop, IsTrip, IsTripOf, tables_in};
ghost use Rattle.timetable_agree.specs.Alike.{alike, same_number, same_visit, same_stop_time, same_frequency, same_times, same_frequencies, same_row, same_trip, trip_in};

use timetable::{Frequency, StopTime, Timetable, TripNo};

pub(crate) fn same_number(old: Option<u32>, new: Option<u32>) -> bool
    ensures { result ≡ same_number old new }
{
    match (old, new) {
        (Some(old), Some(new)) => old == new,
        _ => old.is_none() && new.is_none(),
    }
}

fn same_visit(old: &Timetable, new: &Timetable, before: &StopTime, after: &StopTime) -> bool
    requires old { IsStop old.now before.now.stop }
    requires new { IsStop new.now after.now.stop }
    ensures { result ≡ same_visit (tables_in old.now).stop_times.stops (tables_in new.now).stop_times.stops before.now after.now }
{
    old.stop_text(before.stop) == new.stop_text(after.stop)
        && same_number(before.arrival.get(), after.arrival.get())
        && same_number(before.departure.get(), after.departure.get())
}

fn same_stop_time(old: &Timetable, new: &Timetable, before: &StopTime, after: &StopTime) -> bool
    requires old { IsStop old.now before.now.stop }
    requires new { IsStop new.now after.now.stop }
    ensures { result ≡ same_stop_time (tables_in old.now).stop_times.stops (tables_in new.now).stop_times.stops before.now after.now }
{
    before.sequence == after.sequence && same_visit(old, new, before, after)
}

fn same_stop_times(
    old: &Timetable,
    new: &Timetable,
    before: &[StopTime],
    after: &[StopTime],
) -> bool
    requires old { All (λ time. IsStop old.now time.stop) before.now }
    requires new { All (λ time. IsStop new.now time.stop) after.now }
    ensures { result ≡ pointwise (same_stop_time (tables_in old.now).stop_times.stops (tables_in new.now).stop_times.stops) before.now after.now }
{
    if before.len() != after.len() {
        return false;
    }
    for i in 0..before.len() {
        if !same_stop_time(old, new, &before[i], &after[i]) {
            return false;
        }
    }
    true
}

fn same_frequency(before: &Frequency, after: &Frequency) -> bool
    ensures { result ≡ same_frequency before.now after.now }
{
    before.start == after.start
        && before.end == after.end
        && before.headway == after.headway
        && before.exact == after.exact
}

fn same_frequencies(before: &[Frequency], after: &[Frequency]) -> bool
    ensures { result ≡ pointwise same_frequency before.now after.now }
{
    if before.len() != after.len() {
        return false;
    }
    for i in 0..before.len() {
        if !same_frequency(&before[i], &after[i]) {
            return false;
        }
    }
    true
}

fn same_times(old: &Timetable, before: TripNo, new: &Timetable, after: TripNo) -> bool
    requires old { IsTrip old.now before }
    requires new { IsTrip new.now after }
    ensures { (id : Text) → IsTripOf old.now before id → IsTripOf new.now after id → result ≡ same_times (tables_in old.now) (tables_in new.now) id }
{
    same_stop_times(old, new, old.stop_times(before), new.stop_times(after))
}

fn same_row(old: &Timetable, before: TripNo, new: &Timetable, after: TripNo) -> bool
    requires old { IsTrip old.now before }
    requires new { IsTrip new.now after }
    ensures { (id : Text) → IsTripOf old.now before id → IsTripOf new.now after id → result ≡ alike same_row (trip_in (tables_in old.now) id) (trip_in (tables_in new.now) id) }
{
    old.route_of(before) == new.route_of(after)
        && same_number(old.direction_of(before), new.direction_of(after))
}

/// Whether a trip is unknown to both timetables, or known to both with the same route, direction, stop times and
/// frequencies.
pub(crate) fn same_trip(old: &Timetable, new: &Timetable, id: &str) -> bool
    ensures { result ≡ same_trip (tables_in old.now) (tables_in new.now) id.now }
{
    match (old.trip(id), new.trip(id)) {
        (None, None) => true,
        (Some(before), Some(after)) => {
            same_row(old, before, new, after)
                && same_frequencies(old.frequencies(before), new.frequencies(after))
                && same_times(old, before, new, after)
        }
        _ => false,
    }
}

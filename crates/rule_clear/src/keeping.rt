//! Whether the stop time updates of an entity keep to the timetable. Nothing here takes memory.
ghost use Rattle.std.specs.Prelude.{◌≡◌, ℕ, List, Some, true, false, length, slice_get};
ghost use Rattle.feed_values.specs.Cells.{entity_cell, text_cell};
ghost use Rattle.feed_values.specs.Views.{entity_value, stop_time_update_value};
ghost use Rattle.feed_values.specs.declared.cell_value.CellValue.TheVariants as value;
ghost use Rattle.feed_values.specs.declared.slot.Slot.TheVariants.{S33};
ghost use Rattle.timetable.specs.Lookups.{IsStop, tables_in};
ghost use Rattle.rule_clear.specs.Keeping.{IsHalt, KeepBelow, Keeps, KeepsTime, KeepsTrip, differ, has_time};
ghost use Rattle.rule_clear.specs.KnownTrips.{HasStops, IsTripAt, IsTripWith};
ghost use Rattle.rule_clear.specs.Sound.{AreUpdates, IsUpdateAt, delay_in, time_in};

use crate::known_trip::{KnownTrip, known_trip};
use feed_values::{Entity, StopTimeEvent, StopTimeUpdate, Text};
use timetable::{StopTime, Timetable};

fn is_halt(kind: Option<u32>) -> bool
    ensures { result ≡ true → kind ≡ Some 0 }
{
    match kind {
        Some(0) => true,
        _ => false,
    }
}

/// Whether a stop_id, where it is given, is that of a stop at which vehicles halt.
fn is_at_halt(table: &Timetable, id: &Option<Text>) -> bool
    ensures { result ≡ true → IsHalt (tables_in table.now) (text_cell id.now) }
{
    match id {
        None => true,
        Some(id) => is_halt(table.stop_kind(id.as_str())),
    }
}

/// Whether a stop_id, where it is given, is that of a stop time, and vehicles halt there. A stop time has the number of its stop,
/// so no stop is looked up by its id.
fn is_at_stop(table: &Timetable, stop: u32, id: &Option<Text>) -> bool
    requires { IsStop table.now stop }
    ensures same { result ≡ true → (text : List ℕ) → slice_get (tables_in table.now).stop_times.stops stop ≡ Some text → differ (text_cell id.now) (value.Text text) ≡ false }
    ensures halt { result ≡ true → IsHalt (tables_in table.now) (text_cell id.now) }
{
    match id {
        None => true,
        Some(id) => id.as_str() == table.stop_text(stop) && is_halt(table.kind_of_stop(stop)),
    }
}

/// Whether an event has a time, where one is scheduled or not.
fn has_time(scheduled: Option<u32>, event: &Option<StopTimeEvent>) -> bool
    ensures { result ≡ has_time scheduled (delay_in event.now) (time_in event.now) }
{
    match (scheduled, event) {
        (None, Some(event)) => match (event.delay, event.time) {
            (Some(_), None) => false,
            _ => true,
        },
        _ => true,
    }
}

/// Whether an update keeps to a stop time.
fn keeps_time(
    table: &Timetable,
    entity: &Entity,
    index: usize,
    time: &StopTime,
    stop: &StopTimeUpdate,
) -> bool
    requires time { IsStop table.now time.now.stop }
    requires stop { IsUpdateAt (entity_value entity.now) index (stop_time_update_value stop.now) }
    ensures halt { result ≡ true → IsHalt (tables_in table.now) (entity_cell (entity_value entity.now) S33 index) }
    ensures time { result ≡ true → KeepsTime (tables_in table.now) (entity_value entity.now) index time.now }
{
    is_at_stop(table, time.stop, &stop.stop_id)
        && has_time(time.arrival.get(), &stop.arrival)
        && has_time(time.departure.get(), &stop.departure)
}

/// Whether an update keeps to the stop time that its trip, which is known, has at a stop_sequence.
fn keeps_trip(
    table: &Timetable,
    entity: &Entity,
    index: usize,
    trip: KnownTrip<'_>,
    sequence: u32,
    stop: &StopTimeUpdate,
) -> bool
    requires trip { HasStops table.now trip }
    requires stop { IsUpdateAt (entity_value entity.now) index (stop_time_update_value stop.now) }
    ensures halt { result ≡ true → IsHalt (tables_in table.now) (entity_cell (entity_value entity.now) S33 index) }
    ensures trip { result ≡ true → (id : List ℕ) → IsTripWith (tables_in table.now) trip.entry id → KeepsTrip (tables_in table.now) (entity_value entity.now) index id sequence }
{
    match trip.at(sequence, index) {
        None => false,
        Some(time) => keeps_time(table, entity, index, time, stop),
    }
}

/// Whether the update at an index keeps to the timetable.
fn keeps(
    table: &Timetable,
    entity: &Entity,
    trip: Option<KnownTrip<'_>>,
    index: usize,
    stop: &StopTimeUpdate,
) -> bool
    requires trip { IsTripAt table.now (entity_value entity.now) trip }
    requires stop { IsUpdateAt (entity_value entity.now) index (stop_time_update_value stop.now) }
    ensures { result ≡ true → Keeps (tables_in table.now) (entity_value entity.now) index }
{
    match (trip, stop.stop_sequence) {
        (Some(trip), Some(sequence)) => keeps_trip(table, entity, index, trip, sequence, stop),
        _ => is_at_halt(table, &stop.stop_id),
    }
}

/// Whether each of an entity's updates keeps to the timetable.
pub(crate) fn keep(table: &Timetable, entity: &Entity, stops: &[StopTimeUpdate]) -> bool
    requires { AreUpdates (entity_value entity.now) stops.now }
    ensures { result ≡ true → KeepBelow (tables_in table.now) (entity_value entity.now) (length stops.now) }
{
    let trip = known_trip(table, entity);
    for (index, stop) in stops.iter().enumerate() {
        if !keeps(table, entity, trip, index, stop) {
            return false;
        }
    }
    true
}

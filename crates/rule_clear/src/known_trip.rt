//! The trip of an entity's trip update, looked up once for all its stop time updates.
ghost use Rattle.std.specs.Prelude.{◌≡◌, Some, option_and_then, option_copied};
ghost use Rattle.std.specs.FinMap.{get};
ghost use Rattle.feed_values.specs.Views.{entity_value};
ghost use Rattle.rule_clear.specs.KnownTrips.{IsTripAt};

use feed_values::{CellRef, Entity, Path, Slot, field_at};
use timetable::{StopTime, Timetable, TripTimes};

/// A trip of trips.txt. Its stop times are None where it has none.
#[derive(Clone, Copy)]
pub(crate) struct KnownTrip<'a> {
    pub times: Option<&'a TripTimes>,
}

impl<'a> KnownTrip<'a> {
    /// The stop time at a stop_sequence. Many feeds have an update for each stop of a trip, so the trip's stop time of a number,
    /// from 0, is looked at first.
    pub fn at(self, sequence: u32, number: usize) -> Option<&'a StopTime>
        ensures { option_copied result ≡ option_and_then (λ times. get times sequence) (option_copied self.entry.times) }
    {
        let Some(times) = self.times else {
            return None;
        };
        match times.as_slice().get(number) {
            Some(time) if time.sequence == sequence => Some(time),
            _ => times.get(sequence),
        }
    }
}

/// The trip that an entity's trip update gives, where it gives one that is known.
pub(crate) fn known_trip<'a>(table: &'a Timetable, entity: &Entity) -> Option<KnownTrip<'a>>
    ensures { IsTripAt table.now (entity_value entity.now) result }
{
    let trip_id = Path {
        slot: Slot::UPDATE_TRIP_ID,
        index: 0,
    };
    let CellRef::Text(id) = field_at(entity, trip_id) else {
        return None;
    };
    let Some(trip) = table.trip(id) else {
        return None;
    };
    Some(KnownTrip {
        times: table.times(trip),
    })
}

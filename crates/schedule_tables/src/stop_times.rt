//! The stop times of all trips.

ghost use Rattle.std.specs.Prelude.{◌≡◌, option_copied};
ghost use Rattle.std.specs.FinMap as map;

use crate::grouped::Grouped;
use crate::stop_ids::StopIds;
use crate::trip_times::TripTimes;
use std::marker::Model;

/// Stop times by trip, whose stops are numbers of shared ids.
#[derive(Drop)]
pub struct StopTimes {
    stops: StopIds,
    times: Grouped<TripTimes>,
}

impl Model for StopTimes {
    ghost use Rattle.schedule_tables.specs.Stops.{StopTable, stop_table_code};

    ghost Value = { StopTable };

    ghost coded = { stop_table_code };

    ghost view = { λ table. record { stops = table.stops; times = table.times } };
}

impl StopTimes {
    pub fn new(stops: StopIds, times: Grouped<TripTimes>) -> StopTimes
        ensures { result ≡ (record { stops = stops; times = times }) }
    {
        StopTimes { stops, times }
    }

    /// The stop times of a trip.
    pub fn get(&self, trip: &str) -> Option<&TripTimes>
        ensures { option_copied result ≡ map.get self.now.times trip.now }
    {
        self.times.get(trip)
    }

    /// The ids of the stops.
    pub fn stops(&self) -> &StopIds
        ensures { result.now ≡ self.now.stops }
    {
        &self.stops
    }
}

//! Predictions of trip updates.
ghost use Rattle.std.specs.Prelude.{◌≡◌, ◌<◌, ◌^◌, ◌+ℤ◌, true, Some, IfOk, IfSome, length, option_map};
ghost use Rattle.rt_day.specs.Date.{IsYearInRange};
ghost use Rattle.timetable.specs.Lookups.{IsTrip, IsTripOf, tables_in};
ghost use Rattle.timetable.specs.Maps.{Text};
ghost use Rattle.trip_calendar.specs.Zones.{zone_of};
ghost use Rattle.propagation.specs.Predictions.{AreOver, IsPrediction, HasZero, IsTiming, is_canceled};
ghost use Rattle.propagation.specs.Setters.{IsZero, is_scheduled};
ghost use Rattle.propagation.specs.Stops.{stops_of};

use crate::matching::Matching;
use crate::predictions::Predictions;
use crate::rows::{canceled_rows, put_unmatched, stated_rows};
use crate::setting::is_scheduled;
use crate::stops::Stops;
use crate::walk::Walk;
use feed_values::{TripDescriptor, TripUpdate};
use rt_day::Day;
use std::alloc::{AllocError, Global};
use timetable::{Timetable, TripNo};
use trip_calendar::{Zone, origin, service_day, shift};

/// CANCELED, in the `schedule_relationship` of a trip.
const CANCELED: u32 = 3;

/// Predicts stop events over a timetable whose times are those of a zone.
#[derive(Clone, Copy)]
pub struct Resolver<'a> {
    table: &'a Timetable,
    zone: &'a Zone,
}

/// A trip on its service day, and the zero from which its times count, in POSIX seconds.
#[derive(Clone, Copy)]
struct Timing {
    trip: TripNo,
    day: Day,
    zero: i128,
}

fn is_canceled(trip: &TripDescriptor) -> bool
    ensures { result ≡ is_canceled trip.now }
{
    trip.schedule_relationship.unwrap_or(0) == CANCELED
}

// As much later than an origin as a shift says.
fn shifted(origin: i64, shift: Option<i64>) -> Option<i128>
    ensures value { result ≡ option_map (λ s. origin +ℤ s) shift }
    ensures small { IfSome result IsZero }
{
    match shift {
        Some(shift) => Some(origin as i128 + shift as i128),
        None => None,
    }
}

impl<'a> Resolver<'a> {
    pub fn new(table: &'a Timetable, zone: &'a Zone) -> Resolver<'a>
        ensures table { result.table.now ≡ table.now }
        ensures zone { result.zone.now ≡ zone.now }
    {
        Resolver { table, zone }
    }

    /// What is predicted of a trip update at a moment, in POSIX seconds.
    ///
    /// A canceled trip has one row. In scheduled mode, which is where the trip is known, its relationship is SCHEDULED or not
    /// given, and it has a service day and a shift, each arrival and departure has a row: by the update of its stop where
    /// that is SKIPPED or states its time, else by the last update or trip delay that sets a delay at or before it. Each
    /// update that matches no stop has a row too. Otherwise each time that an update states has a row. (GTFS Realtime
    /// Reference, "Trip Updates".)
    pub fn predict(
        &self,
        alloc: Global,
        update: &TripUpdate,
        moment: u64,
    ) -> Result<Predictions, AllocError>
        requires { length update.now.stop_time_update < 2 ^ 32 }
        ensures { IfOk result (IsPrediction (tables_in self.now.table.now) (zone_of self.now.zone.now) update.now moment) }
    {
        if is_canceled(&update.trip) {
            let rows = canceled_rows(alloc)?;
            return Ok(Predictions::new(None, Vec::new(alloc), rows));
        }
        match self.timing(alloc, &update.trip, moment)? {
            Some(timing) => self.scheduled(alloc, timing, update),
            None => {
                let rows = stated_rows(alloc, update.stop_time_update.as_slice())?;
                Ok(Predictions::new(None, Vec::new(alloc), rows))
            }
        }
    }

    // When a trip runs, in scheduled mode.
    fn timing(
        &self,
        alloc: Global,
        trip: &TripDescriptor,
        moment: u64,
    ) -> Result<Option<Timing>, AllocError>
        ensures { IfOk result (IsTiming self.now.table.now (zone_of self.now.zone.now) trip.now moment) }
    {
        if !is_scheduled(trip.schedule_relationship) {
            return Ok(None);
        }
        let Some(id) = &trip.trip_id else {
            return Ok(None);
        };
        match self.table.trip(id.as_str()) {
            Some(number) => self.timing_of(alloc, number, trip, moment),
            None => Ok(None),
        }
    }

    // When a trip of trips.txt runs.
    fn timing_of(
        &self,
        alloc: Global,
        number: TripNo,
        trip: &TripDescriptor,
        moment: u64,
    ) -> Result<Option<Timing>, AllocError>
        requires number { IsTrip self.now.table.now number }
        requires scheduled { is_scheduled trip.now.schedule_relationship ≡ true }
        ensures { (id : Text) → IsTripOf self.now.table.now number id → trip.now.trip_id ≡ Some id
            → IfOk result (IsTiming self.now.table.now (zone_of self.now.zone.now) trip.now moment) }
    {
        match service_day(alloc, self.table, self.zone, trip, moment)? {
            Some(day) => match self.zero(alloc, day, shift(self.table, number, trip))? {
                Some(zero) => Ok(Some(Timing {
                    trip: number,
                    day,
                    zero,
                })),
                None => Ok(None),
            },
            None => Ok(None),
        }
    }

    // The zero of a trip with a shift on a day, in POSIX seconds.
    fn zero(&self, alloc: Global, day: Day, shift: Option<i64>) -> Result<Option<i128>, AllocError>
        requires { IsYearInRange day.number }
        ensures { IfOk result (HasZero (zone_of self.now.zone.now) day.number shift) }
    {
        match origin(alloc, self.zone, day)? {
            Some(origin) => Ok(shifted(origin, shift)),
            None => unreachable!(),
        }
    }

    // What is predicted in scheduled mode.
    fn scheduled(
        &self,
        alloc: Global,
        timing: Timing,
        update: &TripUpdate,
    ) -> Result<Predictions, AllocError>
        requires few { length update.now.stop_time_update < 2 ^ 32 }
        requires trip { IsTrip self.now.table.now timing.trip }
        requires day { IsYearInRange timing.day.number }
        requires zero { IsZero timing.zero }
        ensures { (id : Text) → IsTripOf self.now.table.now timing.trip id → IfOk result (λ p.
            AreOver (stops_of (tables_in self.now.table.now) id) update.now timing.day.number timing.zero p) }
    {
        let stops = Stops::new(self.table, timing.trip);
        let updates = update.stop_time_update.as_slice();
        let matching = Matching::new(alloc, &stops, updates)?;
        let mut walk = Walk::new(alloc, update.delay)?;
        walk.pass_all(alloc, timing.zero, &stops, updates, &matching)?;
        let Walk { setters, mut rows } = walk;
        put_unmatched(alloc, updates, matching.places(), &mut rows)?;
        Ok(Predictions::new(Some(timing.day), setters, rows))
    }
}

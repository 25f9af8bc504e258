//! The stops of a trip.
ghost use Rattle.std.specs.HashMap.{get_by};
ghost use Rattle.std.specs.Prelude.{◌≡◌, ◌<◌, ◌^◌, ◌==◌, All, IfOk, IfSome, Some, length, slice_get, bytes_eq};
ghost use Rattle.timetable.specs.Lookups.{IsStop, IsTrip, IsTripOf, tables_in};
ghost use Rattle.timetable.specs.Maps.{Text};
ghost use Rattle.timetable.specs.Times.{AreRising};

use crate::visit::Visit;
use feed_values::StopTimeUpdate;
use std::alloc::{AllocError, Global};
use std::collections::HashMap;
use timetable::{StopTime, Timetable, TripNo, place_of_sequence};

/// The stops of a trip, by rising `stop_sequence`. Their ids are those of the timetable.
#[derive(Drop)]
pub(crate) struct Stops<'a> {
    table: &'a Timetable,
    times: &'a [StopTime],
    ghost have_ids: { All (λ time. IsStop table.now time.stop) times.now },
    ghost rising: { AreRising times.now },
    ghost few: { length times.now < 2 ^ 63 },
}

impl<'a> Stops<'a> {
    ghost use Rattle.propagation.specs.Stops.{AreReached, IsFirstFrom, names, stop_in, stops_in, stops_of};

    /// The stops of a trip.
    pub fn new(table: &'a Timetable, trip: TripNo) -> Stops<'a>
        requires { IsTrip table.now trip }
        ensures { (id : Text) → IsTripOf table.now trip id → stops_in result ≡ stops_of (tables_in table.now) id }
    {
        let times = table.stop_times(trip);
        Stops { table, times }
    }

    pub fn len(&self) -> usize
        ensures { result ≡ length (stops_in self.now) }
    {
        self.times.len()
    }

    /// The visit at a place.
    pub fn visit(&self, place: usize) -> Visit<'a>
        requires { place < length (stops_in self.now) }
        ensures { slice_get (stops_in self.now) place ≡ Some (stop_in result) }
    {
        let time = self.times[place];
        Visit {
            stop: self.table.stop_text(time.stop),
            sequence: time.sequence,
            arrival: time.arrival.get(),
            departure: time.departure.get(),
        }
    }

    /// The last place of each stop id.
    pub fn last_places(&self, alloc: Global) -> Result<HashMap<&'a str, usize>, AllocError>
        ensures { IfOk result (λ last. AreReached (stops_in self.now) (λ id. get_by (λ k. bytes_eq id k.now) last)) }
    {
        let mut last = HashMap::new(alloc);
        for place in 0..self.len() {
            last.insert(self.visit(place).stop, place)?;
        }
        Ok(last)
    }

    /// The first stop from a place on that an update names.
    pub fn first_named(
        &self,
        last: &HashMap<&'a str, usize>,
        update: &StopTimeUpdate,
        from: usize,
    ) -> Option<usize>
        requires { AreReached (stops_in self.now) (λ id. get_by (λ k. bytes_eq id k.now) last.now) }
        ensures first { IsFirstFrom (names update.now) (stops_in self.now) from result }
        ensures few { IfSome result (λ place. place < 2 ^ 63) }
    {
        match (update.stop_sequence, &update.stop_id) {
            (Some(sequence), _) => self.with_sequence(sequence, from),
            (None, Some(id)) => self.with_id(last, id.as_str(), from),
            (None, None) => None,
        }
    }

    // The stop of a sequence, where it stands at or after a place.
    fn with_sequence(&self, sequence: u32, from: usize) -> Option<usize>
        ensures { IsFirstFrom (λ stop. stop.sequence == sequence) (stops_in self.now) from result }
    {
        match place_of_sequence(self.times, sequence) {
            Ok(place) => if place >= from { Some(place) } else { None },
            Err(_) => None,
        }
    }

    // The first stop of an id from a place on. Stops are gone through only up to one that is found.
    fn with_id(&self, last: &HashMap<&'a str, usize>, id: &str, from: usize) -> Option<usize>
        requires { AreReached (stops_in self.now) (λ id. get_by (λ k. bytes_eq id k.now) last.now) }
        ensures { IsFirstFrom (λ stop. bytes_eq id.now stop.stop) (stops_in self.now) from result }
    {
        match last.get(id) {
            Some(last) => if *last >= from {
                self.scan(id, from)
            } else {
                None
            },
            None => None,
        }
    }

    fn scan(&self, id: &str, from: usize) -> Option<usize>
        ensures { IsFirstFrom (λ stop. bytes_eq id.now stop.stop) (stops_in self.now) from result }
    {
        for place in from..self.len() {
            if id == self.visit(place).stop {
                return Some(place);
            }
        }
        None
    }
}

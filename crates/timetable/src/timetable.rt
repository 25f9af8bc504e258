//! A timetable in memory.

ghost use Rattle.std.specs.Prelude.{ℕ, ◌≡◌, ◌≢◌, ◌≤◌, Ok, Err, IfOk, IfErr, IfSome, IfNone, None, Some, true, false, All, is_some, length, option_copied, option_map, option_and_then, slice_get, unwrap_or, []};
ghost use Rattle.std.proofs.Props.{props};
ghost use Rattle.std.specs.FinMap as map;
ghost use Rattle.std.specs.List.{IsDistinct};
ghost use Rattle.std.specs.Str.{bytes_eq};
ghost use Rattle.rt_outside.specs.Causes.{Rose};
ghost use Rattle.rt_outside.specs.Store.{contents_told};
ghost use Rattle.schedule_tables.specs.Folders.{path};
ghost use Rattle.schedule_tables.specs.Maps.{Text};
ghost use Rattle.schedule_tables.specs.Stops.{HaveStops, stop_time_at};
ghost use Rattle.schedule_tables.specs.Times.{keyed};
ghost use Rattle.timetable.specs.Timetables.{KnowsKinds, KnowsTwice};
ghost use Rattle.schedule_tables.specs.declared.fault.LoadFault.TheVariants as fault;
ghost use Rattle.schedule_rows.specs.declared.file.File.{File};

use crate::kinds::{kind, kinds_by_number};
use crate::twice::trips_that_return;
use rt_day::Day;
use rt_outside::Files;
use schedule_rows::{Agency, Frequency, Route, ServiceRow, Stop, Trip};
use schedule_tables::{
    Exceptions, Folder, Frequencies, Grouped, LoadFault, Numbered, Only, Source, StopTime,
    StopTimes, TripTimes, Trips,
};
use std::alloc::{AllocError, Global};

/// The greatest size of a file, in bytes.
const LIMIT: usize = 536_870_912;

/// The number of a trip of one timetable.
#[derive(Clone, Copy, Debug, PartialEq, Eq)]
pub struct TripNo {
    number: usize,
}

/// The number of a service of one timetable.
///
/// It stands for the service id of some trip, so two numbers may stand for one id.
#[derive(Clone, Copy, Debug)]
pub struct ServiceNo {
    trip: usize,
}

/// A timetable: the tables of its eight files, or none.
///
/// Look-ups take no memory. Ids are compared byte by byte.
#[derive(Drop)]
pub struct Timetable {
    /// None where it was not given.
    tables: Option<Box<HeldTables>>,
}

/// The tables of the eight files.
///
/// A timetable holds them in a box, so that a function that drops one is proved without the drop of each table.
#[derive(Drop)]
struct HeldTables {
    agencies: Grouped<Only<Agency>>,
    stops: Grouped<Only<Stop>>,
    routes: Grouped<Only<Route>>,
    trips: Numbered<Only<Trip>>,
    stop_times: StopTimes,
    services: Grouped<Only<ServiceRow>>,
    exceptions: Grouped<Exceptions>,
    frequencies: Grouped<Frequencies>,
    twice: Vec<bool>,
    kinds: Vec<Option<u32>>,
    ghost have_stops: { HaveStops stop_times },
    ghost stops_differ: { IsDistinct bytes_eq stop_times.stops } by { Prim.hlevel props },
    ghost knows_twice: { KnowsTwice trips stop_times twice.items },
    ghost knows_kinds: { KnowsKinds stops stop_times.stops kinds.items },
}

/// The tables of the files in the order in which they are read.
pub(crate) type Loaded = (
    Grouped<Only<Agency>>,
    (
        Grouped<Only<Stop>>,
        (
            Grouped<Only<Route>>,
            (
                Trips,
                (
                    StopTimes,
                    (
                        Grouped<Only<ServiceRow>>,
                        (Grouped<Exceptions>, Grouped<Frequencies>),
                    ),
                ),
            ),
        ),
    ),
);

/// For each trip, by number, whether it visits some stop twice; and for each stop of the stop times its location type.
fn found_by_number(
    alloc: Global,
    stops: &Grouped<Only<Stop>>,
    trips: &Numbered<Only<Trip>>,
    stop_times: &StopTimes,
) -> Result<(Vec<bool>, Vec<Option<u32>>), AllocError>
    ensures twice { IfOk result (λ found. KnowsTwice trips.now stop_times.now found.0.items) }
    ensures kinds { IfOk result (λ found. KnowsKinds stops.now stop_times.now.stops found.1.items) }
{
    let twice = trips_that_return(alloc, trips, stop_times)?;
    let kinds = kinds_by_number(alloc, stops, stop_times.stops())?;
    Ok((twice, kinds))
}

/// What is kept, with what was made meanwhile. Where that wasn't made, what is kept is given up: here it is one thing,
/// whatever it is made of, so that its drop is proved once.
fn with_made<K: Drop, M>(kept: K, made: Result<M, AllocError>) -> Result<(K, M), AllocError>
    ensures { IfOk result (λ both. (both.0 ≡ kept) × (made ≡ Ok both.1)) }
{
    match made {
        Ok(made) => Ok((kept, made)),
        Err(error) => Err(error),
    }
}

impl Timetable {
    ghost use Rattle.timetable.specs.Lookups.{IsService, IsServiceOf, IsStop, IsTrip, IsTripOf, is_present, tables_held, tables_in, trip_row};
    ghost use Rattle.timetable.specs.Timetables.{no_tables, stop_times_in, tables_from, tables_of, trip_times, visits_twice};

    /// The timetable that was not given: every table is empty.
    pub fn absent(_alloc: Global) -> Timetable
        ensures present { is_present result ≡ false }
        ensures empty { tables_in result ≡ no_tables }
    {
        Timetable { tables: None }
    }

    /// Reads the eight files of a folder, or answers their first fault.
    ///
    /// A file's name is the folder, a slash and the file's own name. A file of more than 536,870,912
    /// bytes is too large. calendar.txt, calendar_dates.txt and frequencies.txt may be absent.
    pub fn load<F: Files>(
        alloc: Global,
        files: &mut F,
        folder: &str,
    ) -> Result<Timetable, LoadFault>
        ensures present { IfOk result (λ timetable. is_present timetable ≡ true) }
        ensures ok { IfOk result (λ timetable. IfSome (contents_told (F.state files.old).told)
            (λ contents. tables_of folder.now contents ≡ Ok (tables_in timetable))) }
        ensures err { IfErr result (λ e. e ≢ fault.Memory → ((file : File) → e ≢ fault.ReadFault file)
            → IfSome (contents_told (F.state files.old).told) (λ contents. tables_of folder.now contents ≡ Err e)) }
        ensures contents { contents_told (F.state files.new).told ≡ contents_told (F.state files.old).told }
        ensures later { (F.state files.old).faults ≤ (F.state files.new).faults }
        ensures cause { (file : File) → result ≡ Err (fault.ReadFault file)
            → Rose (F.state files.old).faults (F.state files.new).faults }
        ensures asked { (file : File) → result ≡ Err (fault.ReadFault file)
            → IfSome (F.state files.new).asked (λ last. last ≡ path folder.now file) }
    {
        let from = Folder {
            name: folder,
            limit: LIMIT,
            awaited: 0,
        };
        let loaded = Loaded::load(alloc, files, from)?;
        Ok(Timetable::with_tables(alloc, loaded)?)
    }

    fn with_tables(alloc: Global, loaded: Loaded) -> Result<Timetable, AllocError>
        requires stops { HaveStops (stop_times_in loaded) }
        requires differ { IsDistinct bytes_eq (stop_times_in loaded).stops }
        ensures present { IfOk result (λ timetable. is_present timetable ≡ true) }
        ensures tables { IfOk result (λ timetable. tables_from loaded ≡ tables_in timetable) }
    {
        let (agencies, (stops, (routes, (trips, (stop_times, rest))))) = loaded;
        let trips = trips.into_numbered();
        let found = found_by_number(alloc, &stops, &trips, &stop_times);
        let kept = (agencies, (stops, (routes, (trips, (stop_times, rest)))));
        let (kept, (twice, kinds)) = with_made(kept, found)?;
        let (agencies, (stops, (routes, (trips, (stop_times, rest))))) = kept;
        let (services, (exceptions, frequencies)) = rest;
        let held = HeldTables {
            agencies,
            stops,
            routes,
            trips,
            stop_times,
            services,
            exceptions,
            frequencies,
            twice,
            kinds,
        };
        Ok(Timetable {
            tables: Some(Box::new(alloc, held)?),
        })
    }

    /// No stop of the stop times has two numbers, so that stop times with one stop's number are those with one stop's id.
    pub fn stops_differ(&self)
        ensures { IsDistinct bytes_eq (tables_in self.now).stop_times.stops }
    {}

    /// Whether the timetable was loaded.
    pub fn is_present(&self) -> bool
        ensures { result ≡ is_present self.now }
    {
        self.tables.is_some()
    }

    /// The number of a trip of trips.txt.
    pub fn trip(&self, id: &str) -> Option<TripNo>
        ensures found { IfSome result (λ trip. IsTripOf self.now trip id.now) }
        ensures within { IfSome result (IsTrip self.now) }
        ensures none { IfNone result (map.get (tables_in self.now).trips id.now ≡ None) }
        ensures known { is_some result ≡ is_some (map.get (tables_in self.now).trips id.now) }
    {
        let held = match &self.tables {
            Some(held) => held,
            None => return None,
        };
        match held.trips.number(id) {
            Some(number) => Some(TripNo { number }),
            None => None,
        }
    }

    /// Whether routes.txt has the id.
    pub fn has_route(&self, id: &str) -> bool
        ensures { result ≡ is_some (map.get (tables_in self.now).routes id.now) }
    {
        match &self.tables {
            Some(held) => held.routes.get(id).is_some(),
            None => false,
        }
    }

    /// Whether agency.txt has the id.
    pub fn has_agency(&self, id: &str) -> bool
        ensures { result ≡ is_some (map.get (tables_in self.now).agencies id.now) }
    {
        match &self.tables {
            Some(held) => held.agencies.get(id).is_some(),
            None => false,
        }
    }

    /// The location type of a stop of stops.txt, 0 where it is left blank.
    pub fn stop_kind(&self, id: &str) -> Option<u32>
        ensures { result ≡ option_map (λ only. only.item.kind) (map.get (tables_in self.now).stops id.now) }
    {
        match &self.tables {
            Some(held) => kind(&held.stops, id),
            None => None,
        }
    }

    /// The route id of a trip.
    pub fn route_of(&self, trip: TripNo) -> &str
        requires { IsTrip self.now trip }
        ensures { (id : Text) → IsTripOf self.now trip id
            → option_map (λ row. row.route) (trip_row self.now id) ≡ Some result.now }
    {
        self.held().trips.get(trip.number).item.route.as_str()
    }

    /// The direction of a trip, None where it is left blank.
    pub fn direction_of(&self, trip: TripNo) -> Option<u32>
        requires { IsTrip self.now trip }
        ensures { (id : Text) → IsTripOf self.now trip id
            → option_map (λ row. row.direction) (trip_row self.now id) ≡ Some result }
    {
        self.held().trips.get(trip.number).item.direction
    }

    /// The service of a trip.
    pub fn service_of(&self, trip: TripNo) -> ServiceNo
        requires { IsTrip self.now trip }
        ensures within { IsService self.now result }
        ensures service { (id : Text) → IsTripOf self.now trip id
            → IfSome (trip_row self.now id) (λ row. IsServiceOf self.now result row.service) }
    {
        ServiceNo { trip: trip.number }
    }

    /// The stop times of a trip, by rising sequence.
    pub fn stop_times(&self, trip: TripNo) -> &[StopTime]
        requires { IsTrip self.now trip }
        ensures times { (id : Text) → IsTripOf self.now trip id
            → keyed result.now ≡ map.entries (trip_times (tables_in self.now).stop_times id) }
        ensures stops { All (λ time. IsStop self.now time.stop) result.now }
    {
        let held = self.held();
        match held.stop_times.get(held.trips.id(trip.number)) {
            Some(times) => times.as_slice(),
            None => &[],
        }
    }

    /// The stop times of a trip by sequence, None where it has none. One look-up serves all sequences.
    pub fn times(&self, trip: TripNo) -> Option<&TripTimes>
        requires { IsTrip self.now trip }
        ensures times { (id : Text) → IsTripOf self.now trip id
            → option_copied result ≡ map.get (tables_in self.now).stop_times.times id }
        ensures stops { IfSome result (λ times. (sequence : ℕ) → IfSome (map.get times.now sequence) (λ time. IsStop self.now time.stop)) }
    {
        let held = self.held();
        held.stop_times.get(held.trips.id(trip.number))
    }

    /// The stop time of a trip at a sequence.
    pub fn stop_time(&self, trip: TripNo, sequence: u32) -> Option<&StopTime>
        requires { IsTrip self.now trip }
        ensures time { (id : Text) → IsTripOf self.now trip id
            → option_copied result ≡ stop_time_at (tables_in self.now).stop_times.times id sequence }
        ensures stop { IfSome result (λ time. IsStop self.now time.now.stop) }
    {
        match self.times(trip) {
            Some(times) => times.get(sequence),
            None => None,
        }
    }

    /// The stop id of a stop time's number.
    pub fn stop_text(&self, stop: u32) -> &str
        requires { IsStop self.now stop }
        ensures { slice_get (tables_in self.now).stop_times.stops stop ≡ Some result.now }
    {
        self.held().stop_times.stops().get(stop as usize)
    }

    /// The location type of a stop time's stop by its number, without a look-up of its id: what `stop_kind` answers
    /// for `stop_text`.
    pub fn kind_of_stop(&self, stop: u32) -> Option<u32>
        requires { IsStop self.now stop }
        ensures { (id : Text) → slice_get (tables_in self.now).stop_times.stops stop ≡ Some id
            → result ≡ option_map (λ only. only.item.kind) (map.get (tables_in self.now).stops id) }
    {
        self.held().kinds[stop as usize]
    }

    /// Whether two stop times of a trip have one stop.
    pub fn visits_twice(&self, trip: TripNo) -> bool
        requires { IsTrip self.now trip }
        ensures { (id : Text) → IsTripOf self.now trip id
            → result ≡ visits_twice (trip_times (tables_in self.now).stop_times id) }
    {
        self.held().twice[trip.number]
    }

    /// Whether frequencies.txt has rows.
    pub fn has_frequencies(&self) -> bool
        ensures none { result ≡ false → (tables_in self.now).frequencies ≡ map.empty }
        ensures some { result ≡ true → (tables_in self.now).frequencies ≢ map.empty }
    {
        match &self.tables {
            Some(held) => !held.frequencies.is_empty(),
            None => false,
        }
    }

    /// The frequencies of a trip, in the order of the file.
    pub fn frequencies(&self, trip: TripNo) -> &[Frequency]
        requires { IsTrip self.now trip }
        ensures { (id : Text) → IsTripOf self.now trip id
            → result.now ≡ unwrap_or (map.get (tables_in self.now).frequencies id) [] }
    {
        let held = self.held();
        match held.frequencies.get(held.trips.id(trip.number)) {
            Some(frequencies) => frequencies.as_slice(),
            None => &[],
        }
    }

    /// The row of a service in calendar.txt.
    pub fn calendar(&self, service: ServiceNo) -> Option<&ServiceRow>
        requires { IsService self.now service }
        ensures { (id : Text) → IsServiceOf self.now service id
            → option_copied result ≡ option_map (λ only. only.item) (map.get (tables_in self.now).services id) }
    {
        match self.held().services.get(self.service_id(service)) {
            Some(only) => Some(&only.item),
            None => None,
        }
    }

    /// Whether calendar_dates.txt adds a day to a service or removes it, None where it does neither.
    pub fn exception(&self, service: ServiceNo, day: Day) -> Option<bool>
        requires { IsService self.now service }
        ensures { (id : Text) → IsServiceOf self.now service id
            → result ≡ option_and_then (λ days. map.get days day.number) (map.get (tables_in self.now).exceptions id) }
    {
        match self.held().exceptions.get(self.service_id(service)) {
            Some(exceptions) => exceptions.get(day),
            None => None,
        }
    }

    fn service_id(&self, service: ServiceNo) -> &str
        requires { IsService self.now service }
        ensures { (id : Text) → IsServiceOf self.now service id → result.now ≡ id }
    {
        self.held().trips.get(service.trip).item.service.as_str()
    }

    /// The tables, which each timetable with a trip, a service or a stop holds.
    fn held(&self) -> &HeldTables
        requires { is_present self.now ≡ true }
        ensures { tables_held self.now ≡ Some result.now }
    {
        match &self.tables {
            Some(held) => held,
            None => unreachable!(),
        }
    }
}

//! What is asked, owned and borrowed.
ghost use Rattle.std.specs.Prelude.{◌≡◌, ◌↔◌, IsTrue, IfOk};
ghost use Rattle.rule_table.specs.Asked.{ask_value};
ghost use Rattle.rule_table.specs.Parts.{parts_of};

use crate::kind::Kind;
use crate::parts::{are_same, parts_of};
use feed_values::{Path, Slot, Text};
use std::alloc::{AllocError, Global};

/// What a fact asks. Each ask is answered for a place, after a history of snapshots and with a timetable; a yes is 1 and a
/// no is 0.
#[derive(Drop)]
pub enum Ask {
    /// The cell of the place's entity at a path.
    Cell(Path),
    /// The cell of the last header of the place's feed.
    HeadNow(Slot),
    /// The cell of the header before it, missing where there is none.
    HeadBefore(Slot),
    /// The moment of the last snapshot of the place's feed.
    Moment,
    /// How many entities with its id stand before the place's.
    Occurrence,
    /// Whether the feed has a snapshot before, and the bytes of the two lists of entities differ.
    EntitiesChanged,
    /// Whether trips.txt has the trip.
    TripKnown(Text),
    /// Whether routes.txt has the route.
    RouteKnown(Text),
    /// Whether agency.txt has the agency.
    AgencyKnown(Text),
    /// The location_type of a stop, missing where stops.txt hasn't the stop.
    StopKind(Text),
    /// The route_id of a trip, missing where the trip isn't known.
    TripRoute(Text),
    /// The direction_id of a trip, missing where it is left blank or the trip isn't known.
    TripDirection(Text),
    /// The exact_times of a trip's first row in frequencies.txt, missing where it has none or isn't known.
    TripExact(Text),
    /// Whether a text is a time at which frequencies.txt lets a trip start.
    OnGrid(Text, Text),
    /// Whether two stop times of a trip have one stop.
    VisitsTwice(Text),
    /// The arrival at a trip's first stop, in seconds, missing where it is left blank or there is none.
    FirstArrival(Text),
    /// The stop of a trip at a stop_sequence, missing where there is none.
    StopAt(Text, u32),
    /// The scheduled arrival of a trip at a stop_sequence, in seconds, missing where there is none.
    ArrivalAt(Text, u32),
    /// The scheduled departure of a trip at a stop_sequence, in seconds, missing where there is none.
    DepartureAt(Text, u32),
    /// The vehicle of the first message of a kind that gives the trip and a vehicle, missing where there is none.
    FirstVehicle(Kind, Text),
    /// Whether a message of a kind gives the trip and the vehicle.
    HasPair(Kind, Text, Text),
    /// Whether there is a message of a kind.
    AnyRow(Kind),
    /// Whether a message of a kind gives the trip.
    HasTrip(Kind, Text),
    /// Whether a message of a kind gives the vehicle.
    HasVehicle(Kind, Text),
    /// The id of the first entity of a feed whose vehicle position gives the vehicle, missing where there is none.
    FirstId(u8, Text),
    /// The occurrence of that entity.
    FirstOccurrence(u8, Text),
    /// The greatest timestamp of a vehicle in the snapshots of a feed before the last one, missing where it gave none.
    Peak(u8, Text),
}

/// The same with borrowed texts.
#[derive(Clone, Copy)]
pub enum AskRef<'a> {
    Cell(Path),
    HeadNow(Slot),
    HeadBefore(Slot),
    Moment,
    Occurrence,
    EntitiesChanged,
    TripKnown(&'a str),
    RouteKnown(&'a str),
    AgencyKnown(&'a str),
    StopKind(&'a str),
    TripRoute(&'a str),
    TripDirection(&'a str),
    TripExact(&'a str),
    OnGrid(&'a str, &'a str),
    VisitsTwice(&'a str),
    FirstArrival(&'a str),
    StopAt(&'a str, u32),
    ArrivalAt(&'a str, u32),
    DepartureAt(&'a str, u32),
    FirstVehicle(Kind, &'a str),
    HasPair(Kind, &'a str, &'a str),
    AnyRow(Kind),
    HasTrip(Kind, &'a str),
    HasVehicle(Kind, &'a str),
    FirstId(u8, &'a str),
    FirstOccurrence(u8, &'a str),
    Peak(u8, &'a str),
}

impl Ask {
    /// The ask with its texts borrowed.
    pub fn borrowed(&self) -> AskRef<'_>
        ensures { ask_value result ≡ self.now }
    {
        match self {
            Ask::Cell(p) => AskRef::Cell(*p),
            Ask::HeadNow(s) => AskRef::HeadNow(*s),
            Ask::HeadBefore(s) => AskRef::HeadBefore(*s),
            Ask::Moment => AskRef::Moment,
            Ask::Occurrence => AskRef::Occurrence,
            Ask::EntitiesChanged => AskRef::EntitiesChanged,
            Ask::TripKnown(trip) => AskRef::TripKnown(trip.as_str()),
            Ask::RouteKnown(route) => AskRef::RouteKnown(route.as_str()),
            Ask::AgencyKnown(agency) => AskRef::AgencyKnown(agency.as_str()),
            Ask::StopKind(stop) => AskRef::StopKind(stop.as_str()),
            Ask::TripRoute(trip) => AskRef::TripRoute(trip.as_str()),
            Ask::TripDirection(trip) => AskRef::TripDirection(trip.as_str()),
            Ask::TripExact(trip) => AskRef::TripExact(trip.as_str()),
            Ask::OnGrid(trip, time) => AskRef::OnGrid(trip.as_str(), time.as_str()),
            Ask::VisitsTwice(trip) => AskRef::VisitsTwice(trip.as_str()),
            Ask::FirstArrival(trip) => AskRef::FirstArrival(trip.as_str()),
            Ask::StopAt(trip, sequence) => AskRef::StopAt(trip.as_str(), *sequence),
            Ask::ArrivalAt(trip, sequence) => AskRef::ArrivalAt(trip.as_str(), *sequence),
            Ask::DepartureAt(trip, sequence) => AskRef::DepartureAt(trip.as_str(), *sequence),
            Ask::FirstVehicle(kind, trip) => AskRef::FirstVehicle(*kind, trip.as_str()),
            Ask::HasPair(kind, trip, vehicle) => AskRef::HasPair(
                *kind,
                trip.as_str(),
                vehicle.as_str(),
            ),
            Ask::AnyRow(kind) => AskRef::AnyRow(*kind),
            Ask::HasTrip(kind, trip) => AskRef::HasTrip(*kind, trip.as_str()),
            Ask::HasVehicle(kind, vehicle) => AskRef::HasVehicle(*kind, vehicle.as_str()),
            Ask::FirstId(feed, vehicle) => AskRef::FirstId(*feed, vehicle.as_str()),
            Ask::FirstOccurrence(feed, vehicle) => AskRef::FirstOccurrence(*feed, vehicle.as_str()),
            Ask::Peak(feed, vehicle) => AskRef::Peak(*feed, vehicle.as_str()),
        }
    }
}

impl AskRef<'_> {
    /// The ask with texts of its own.
    pub fn to_ask(self, alloc: Global) -> Result<Ask, AllocError>
        ensures { IfOk result (λ ask. ask ≡ ask_value self.entry) }
    {
        let parts = parts_of(self);
        let first = Text::of(alloc, parts.first)?;
        let second = Text::of(alloc, parts.second)?;
        Ok(self.with_texts(first, second))
    }

    /// The ask with the texts that it is asked of. What it isn't asked of is given up.
    fn with_texts(self, first: Text, second: Text) -> Ask
        requires first { first ≡ (parts_of (ask_value self)).first }
        requires second { second ≡ (parts_of (ask_value self)).second }
        ensures { result ≡ ask_value self.entry }
    {
        match self {
            AskRef::Cell(path) => Ask::Cell(path),
            AskRef::HeadNow(slot) => Ask::HeadNow(slot),
            AskRef::HeadBefore(slot) => Ask::HeadBefore(slot),
            AskRef::Moment => Ask::Moment,
            AskRef::Occurrence => Ask::Occurrence,
            AskRef::EntitiesChanged => Ask::EntitiesChanged,
            AskRef::TripKnown(_) => Ask::TripKnown(first),
            AskRef::RouteKnown(_) => Ask::RouteKnown(first),
            AskRef::AgencyKnown(_) => Ask::AgencyKnown(first),
            AskRef::StopKind(_) => Ask::StopKind(first),
            AskRef::TripRoute(_) => Ask::TripRoute(first),
            AskRef::TripDirection(_) => Ask::TripDirection(first),
            AskRef::TripExact(_) => Ask::TripExact(first),
            AskRef::OnGrid(_, _) => Ask::OnGrid(first, second),
            AskRef::VisitsTwice(_) => Ask::VisitsTwice(first),
            AskRef::FirstArrival(_) => Ask::FirstArrival(first),
            AskRef::StopAt(_, sequence) => Ask::StopAt(first, sequence),
            AskRef::ArrivalAt(_, sequence) => Ask::ArrivalAt(first, sequence),
            AskRef::DepartureAt(_, sequence) => Ask::DepartureAt(first, sequence),
            AskRef::FirstVehicle(kind, _) => Ask::FirstVehicle(kind, first),
            AskRef::HasPair(kind, _, _) => Ask::HasPair(kind, first, second),
            AskRef::AnyRow(kind) => Ask::AnyRow(kind),
            AskRef::HasTrip(kind, _) => Ask::HasTrip(kind, first),
            AskRef::HasVehicle(kind, _) => Ask::HasVehicle(kind, first),
            AskRef::FirstId(feed, _) => Ask::FirstId(feed, first),
            AskRef::FirstOccurrence(feed, _) => Ask::FirstOccurrence(feed, first),
            AskRef::Peak(feed, _) => Ask::Peak(feed, first),
        }
    }

    /// Whether it is an owned ask.
    pub fn is_ask(self, ask: &Ask) -> bool
        ensures { IsTrue result ↔ (ask_value self.entry ≡ ask.now) }
    {
        are_same(parts_of(self), parts_of(ask.borrowed()))
    }
}

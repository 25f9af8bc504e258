//! For whom alerts are asked.
ghost use Rattle.std.specs.Prelude.{◌≡◌, option_map};
ghost use Rattle.std.specs.Option.{option_and_then};
ghost use Rattle.feed_values.specs.Views.{entity_selector_value, trip_descriptor_value};
ghost use Rattle.alert_terms.specs.InForce.{gives, selector_of, selects, trip_id_of, trip_route_of};

use feed_values::{Boxed, EntitySelector, Text, TripDescriptor};

/// For whom alerts are asked, by an id as in the timetable.
#[derive(Debug, Drop)]
pub enum Query {
    Agency(Text),
    /// A route, as an alert names it beside a trip or in the trip.
    Route(Text),
    Trip(Text),
    Stop(Text),
}

impl Query {
    /// Whether a selector has the id. Its other fields don't matter. (GTFS Realtime Reference 2.0, "EntitySelector" and
    /// "TripDescriptor".)
    pub fn selects(&self, selector: &Boxed<EntitySelector>) -> bool
        ensures { result ≡ selects self.now (selector_of (entity_selector_value selector.now)) }
    {
        match selector.get() {
            Some(selector) => self.selects_given(selector),
            None => false,
        }
    }

    // Whether a selector that has some field has the id.
    fn selects_given(&self, selector: &EntitySelector) -> bool
        ensures { result ≡ selects self.now (selector_of (entity_selector_value selector.now)) }
    {
        match self {
            Query::Agency(id) => gives(&selector.agency_id, id),
            Query::Route(id) => gives(&selector.route_id, id) || gives_route(&selector.trip, id),
            Query::Trip(id) => gives_trip(&selector.trip, id),
            Query::Stop(id) => gives(&selector.stop_id, id),
        }
    }
}

// Whether an id is given, and is this one.
fn gives(given: &Option<Text>, id: &Text) -> bool
    ensures { result ≡ gives given.now id.now }
{
    match given {
        Some(given) => given == id,
        None => false,
    }
}

// Whether a trip is given by this id.
fn gives_trip(trip: &Option<Boxed<TripDescriptor>>, id: &Text) -> bool
    ensures { result ≡ gives (option_and_then trip_id_of (option_map trip_descriptor_value trip.now)) id.now }
{
    let Some(trip) = trip else {
        return false;
    };
    match trip.get() {
        Some(trip) => gives(&trip.trip_id, id),
        None => false,
    }
}

// Whether a trip is given, and its route by this id.
fn gives_route(trip: &Option<Boxed<TripDescriptor>>, id: &Text) -> bool
    ensures { result ≡ gives (option_and_then trip_route_of (option_map trip_descriptor_value trip.now)) id.now }
{
    let Some(trip) = trip else {
        return false;
    };
    match trip.get() {
        Some(trip) => gives(&trip.route_id, id),
        None => false,
    }
}

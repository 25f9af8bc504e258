//! Asks by their names.
ghost use Rattle.std.specs.Prelude.{◌≡◌};
ghost use Rattle.finding_names.specs.AskNames.{all_names, name_text, ask_name_of};

/// An ask without what it is asked of.
#[derive(Clone, Copy)]
pub enum AskName {
    Cell,
    HeadNow,
    HeadBefore,
    Moment,
    Occurrence,
    EntitiesChanged,
    TripKnown,
    RouteKnown,
    AgencyKnown,
    StopKind,
    TripRoute,
    TripDirection,
    TripExact,
    OnGrid,
    VisitsTwice,
    FirstArrival,
    StopAt,
    ArrivalAt,
    DepartureAt,
    FirstVehicle,
    HasPair,
    AnyRow,
    HasTrip,
    HasVehicle,
    FirstId,
    FirstOccurrence,
    Peak,
}

const NAMES: [AskName; 27] = [
    AskName::Cell,
    AskName::HeadNow,
    AskName::HeadBefore,
    AskName::Moment,
    AskName::Occurrence,
    AskName::EntitiesChanged,
    AskName::TripKnown,
    AskName::RouteKnown,
    AskName::AgencyKnown,
    AskName::StopKind,
    AskName::TripRoute,
    AskName::TripDirection,
    AskName::TripExact,
    AskName::OnGrid,
    AskName::VisitsTwice,
    AskName::FirstArrival,
    AskName::StopAt,
    AskName::ArrivalAt,
    AskName::DepartureAt,
    AskName::FirstVehicle,
    AskName::HasPair,
    AskName::AnyRow,
    AskName::HasTrip,
    AskName::HasVehicle,
    AskName::FirstId,
    AskName::FirstOccurrence,
    AskName::Peak,
];

impl AskName {
    /// The ask of a name, such as `head_now`.
    pub fn named(text: &str) -> Option<AskName>
        ensures { result ≡ ask_name_of text.now }
    {
        all_names().iter().copied().find(|name| name.text() == text)
    }

    fn text(self) -> &'static str
        ensures { result.now ≡ name_text self }
    {
        match self {
            AskName::Cell => "cell",
            AskName::HeadNow => "head_now",
            AskName::HeadBefore => "head_before",
            AskName::Moment => "moment",
            AskName::Occurrence => "occurrence",
            AskName::EntitiesChanged => "entities_changed",
            AskName::TripKnown => "trip_known",
            AskName::RouteKnown => "route_known",
            AskName::AgencyKnown => "agency_known",
            AskName::StopKind => "stop_kind",
            AskName::TripRoute => "trip_route",
            AskName::TripDirection => "trip_direction",
            AskName::TripExact => "trip_exact",
            AskName::OnGrid => "on_grid",
            AskName::VisitsTwice => "visits_twice",
            AskName::FirstArrival => "first_arrival",
            AskName::StopAt => "stop_at",
            AskName::ArrivalAt => "arrival_at",
            AskName::DepartureAt => "departure_at",
            AskName::FirstVehicle => "first_vehicle",
            AskName::HasPair => "has_pair",
            AskName::AnyRow => "any_row",
            AskName::HasTrip => "has_trip",
            AskName::HasVehicle => "has_vehicle",
            AskName::FirstId => "first_id",
            AskName::FirstOccurrence => "first_occurrence",
            AskName::Peak => "peak",
        }
    }
}

fn all_names() -> &'static [AskName]
    ensures { result.now ≡ all_names }
{
    &NAMES
}

//! The rules, row by row: `specs/Table.antt` as code.
ghost use Rattle.std.specs.Prelude.{◌≡◌, ◌≤◌, length};
ghost use Rattle.rule_table.specs.Table.{all_rules, slots_of, head_slots_of, first_of, cites_of, head_cites_of, test_of, head_test_of};
ghost use Rattle.rule_table.specs.Rows.{slots_at, cites_at, test_at};
ghost use Rattle.rule_table.specs.Asked.{place_value};

use crate::place::PlaceRef;
use crate::row::{Atom, Cite};
use crate::rule::RuleId;
use feed_values::Slot;

/// The rules in the order of their texts.
pub fn all_rules() -> &'static [RuleId]
    ensures { result.now ≡ all_rules }
{
    &[
        RuleId::E001,
        RuleId::E002,
        RuleId::E003,
        RuleId::E004,
        RuleId::E006,
        RuleId::E009,
        RuleId::E011,
        RuleId::E012,
        RuleId::E013,
        RuleId::E015,
        RuleId::E016,
        RuleId::E017,
        RuleId::E018,
        RuleId::E019,
        RuleId::E020,
        RuleId::E021,
        RuleId::E022,
        RuleId::E023,
        RuleId::E024,
        RuleId::E025,
        RuleId::E030,
        RuleId::E031,
        RuleId::E032,
        RuleId::E033,
        RuleId::E034,
        RuleId::E035,
        RuleId::E036,
        RuleId::E037,
        RuleId::E038,
        RuleId::E039,
        RuleId::E040,
        RuleId::E041,
        RuleId::E042,
        RuleId::E043,
        RuleId::E044,
        RuleId::E045,
        RuleId::E046,
        RuleId::E047,
        RuleId::E048,
        RuleId::E049,
        RuleId::E050,
        RuleId::E051,
        RuleId::E052,
        RuleId::W001,
        RuleId::W002,
        RuleId::W003,
        RuleId::W005,
        RuleId::W006,
        RuleId::W007,
        RuleId::W008,
        RuleId::W009,
        RuleId::X001,
        RuleId::X002,
    ]
}

/// The slots of an entity at which a rule is judged, by rising number.
pub fn slots(rule: RuleId) -> &'static [Slot]
    ensures { result.now ≡ slots_of rule }
{
    match rule {
        RuleId::E001 => &[
            Slot::UPDATE_TIMESTAMP,
            Slot::UPDATE_ARRIVAL_TIME,
            Slot::UPDATE_DEPARTURE_TIME,
            Slot::VEHICLE_TIMESTAMP,
            Slot::ALERT_START,
            Slot::ALERT_END,
        ],
        RuleId::E002 => &[Slot::UPDATE_STOP_SEQUENCE],
        RuleId::E003 => &[
            Slot::UPDATE_TRIP_ID,
            Slot::VEHICLE_TRIP_ID,
            Slot::ALERT_TRIP_ID,
        ],
        RuleId::E004 => &[
            Slot::UPDATE_ROUTE_ID,
            Slot::VEHICLE_ROUTE_ID,
            Slot::ALERT_ROUTE_ID,
            Slot::ALERT_TRIP_ROUTE_ID,
        ],
        RuleId::E006 => &[Slot::UPDATE_TRIP_ID, Slot::VEHICLE_TRIP_ID],
        RuleId::E009 => &[Slot::UPDATE_STOP_SEQUENCE],
        RuleId::E011 => &[
            Slot::UPDATE_STOP_ID,
            Slot::UPDATE_ASSIGNED_STOP_ID,
            Slot::VEHICLE_STOP_ID,
            Slot::ALERT_STOP_ID,
        ],
        RuleId::E012 => &[Slot::UPDATE_TIMESTAMP, Slot::VEHICLE_TIMESTAMP],
        RuleId::E013 => &[
            Slot::UPDATE_TRIP_RELATIONSHIP,
            Slot::VEHICLE_TRIP_RELATIONSHIP,
        ],
        RuleId::E015 => &[
            Slot::UPDATE_STOP_ID,
            Slot::UPDATE_ASSIGNED_STOP_ID,
            Slot::VEHICLE_STOP_ID,
        ],
        RuleId::E016 => &[
            Slot::UPDATE_TRIP_ID,
            Slot::VEHICLE_TRIP_ID,
            Slot::ALERT_TRIP_ID,
        ],
        RuleId::E019 => &[Slot::UPDATE_START_TIME, Slot::VEHICLE_START_TIME],
        RuleId::E020 => &[
            Slot::UPDATE_START_TIME,
            Slot::UPDATE_PROPERTIES_START_TIME,
            Slot::VEHICLE_START_TIME,
            Slot::ALERT_START_TIME,
        ],
        RuleId::E021 => &[
            Slot::UPDATE_START_DATE,
            Slot::UPDATE_PROPERTIES_START_DATE,
            Slot::VEHICLE_START_DATE,
            Slot::ALERT_START_DATE,
        ],
        RuleId::E022 => &[Slot::UPDATE_STOP],
        RuleId::E023 => &[Slot::UPDATE_START_TIME, Slot::VEHICLE_START_TIME],
        RuleId::E024 => &[
            Slot::UPDATE_DIRECTION_ID,
            Slot::VEHICLE_DIRECTION_ID,
            Slot::ALERT_DIRECTION_ID,
        ],
        RuleId::E025 => &[Slot::UPDATE_DEPARTURE_TIME],
        RuleId::E030 => &[Slot::ALERT_ROUTE_ID],
        RuleId::E031 => &[Slot::ALERT_ROUTE_ID],
        RuleId::E032 => &[Slot::ALERT_SELECTORS],
        RuleId::E033 => &[Slot::ALERT_SELECTOR],
        RuleId::E034 => &[Slot::ALERT_AGENCY_ID],
        RuleId::E035 => &[
            Slot::UPDATE_ROUTE_ID,
            Slot::VEHICLE_ROUTE_ID,
            Slot::ALERT_TRIP_ROUTE_ID,
        ],
        RuleId::E036 => &[Slot::UPDATE_STOP_SEQUENCE],
        RuleId::E037 => &[Slot::UPDATE_STOP_ID],
        RuleId::E039 => &[Slot::ENTITY_IS_DELETED],
        RuleId::E040 => &[Slot::UPDATE_STOP],
        RuleId::E041 => &[Slot::UPDATE_STOPS],
        RuleId::E042 => &[Slot::UPDATE_ARRIVAL, Slot::UPDATE_DEPARTURE],
        RuleId::E043 => &[Slot::UPDATE_STOP],
        RuleId::E044 => &[Slot::UPDATE_ARRIVAL, Slot::UPDATE_DEPARTURE],
        RuleId::E045 => &[Slot::UPDATE_STOP_ID],
        RuleId::E046 => &[Slot::UPDATE_ARRIVAL, Slot::UPDATE_DEPARTURE],
        RuleId::E047 => &[Slot::UPDATE_VEHICLE_ID, Slot::VEHICLE_ID],
        RuleId::E050 => &[Slot::UPDATE_TIMESTAMP, Slot::VEHICLE_TIMESTAMP],
        RuleId::E051 => &[Slot::UPDATE_STOP_SEQUENCE],
        RuleId::E052 => &[Slot::VEHICLE_ID],
        RuleId::W001 => &[Slot::UPDATE_TIMESTAMP, Slot::VEHICLE_TIMESTAMP],
        RuleId::W002 => &[Slot::UPDATE_VEHICLE_ID, Slot::VEHICLE_ID],
        RuleId::W003 => &[
            Slot::UPDATE_TRIP_ID,
            Slot::UPDATE_VEHICLE_ID,
            Slot::VEHICLE_TRIP_ID,
            Slot::VEHICLE_ID,
        ],
        RuleId::W005 => &[Slot::UPDATE_VEHICLE_ID],
        RuleId::W006 => &[Slot::UPDATE_TRIP_ID],
        RuleId::W009 => &[
            Slot::UPDATE_TRIP_RELATIONSHIP,
            Slot::UPDATE_STOP_RELATIONSHIP,
            Slot::VEHICLE_TRIP_RELATIONSHIP,
        ],
        RuleId::X001 => &[Slot::VEHICLE_TIMESTAMP],
        RuleId::X002 => &[Slot::ENTITY_ID],
        _ => &[],
    }
}

/// The slots of a header at which a rule is judged.
pub fn head_slots(rule: RuleId) -> &'static [Slot]
    ensures { result.now ≡ head_slots_of rule }
{
    match rule {
        RuleId::E001 => &[Slot::HEADER_TIMESTAMP],
        RuleId::E017 => &[Slot::HEADER_TIMESTAMP],
        RuleId::E018 => &[Slot::HEADER_TIMESTAMP],
        RuleId::E038 => &[Slot::HEADER_VERSION],
        RuleId::E048 => &[Slot::HEADER_TIMESTAMP],
        RuleId::E049 => &[Slot::HEADER_INCREMENTALITY],
        RuleId::E050 => &[Slot::HEADER_TIMESTAMP],
        RuleId::W001 => &[Slot::HEADER_TIMESTAMP],
        RuleId::W007 => &[Slot::HEADER_TIMESTAMP],
        RuleId::W008 => &[Slot::HEADER_TIMESTAMP],
        _ => &[],
    }
}

/// The least index at which a rule is judged.
pub fn first(rule: RuleId) -> u32
    ensures { result ≡ first_of rule }
{
    match rule {
        RuleId::E002 | RuleId::E022 | RuleId::E036 | RuleId::E037 => 1,
        _ => 0,
    }
}

/// The facts that a rule cites, in order. They are six at most.
pub fn cites(rule: RuleId) -> &'static [Cite]
    ensures cites { result.now ≡ cites_of rule }
    ensures few { length result.now ≤ 6 }
{
    match rule {
        RuleId::E001 => &[Cite::Place],
        RuleId::E002 => &[Cite::Before(Slot::UPDATE_STOP_SEQUENCE), Cite::Place],
        RuleId::E003 => &[Cite::Place, Cite::Relationship, Cite::TripKnown(0)],
        RuleId::E004 => &[Cite::Place, Cite::RouteKnown(0)],
        RuleId::E006 => &[
            Cite::Place,
            Cite::StartTime,
            Cite::StartDate,
            Cite::TripExact(0),
        ],
        RuleId::E009 => &[
            Cite::Cell(Slot::UPDATE_STOP),
            Cite::Cell(Slot::UPDATE_TRIP_ID),
            Cite::Place,
            Cite::VisitsTwice(1),
        ],
        RuleId::E011 => &[Cite::Place, Cite::StopKind(0)],
        RuleId::E012 => &[Cite::Place, Cite::HeadNow(Slot::HEADER_TIMESTAMP)],
        RuleId::E013 => &[Cite::TripId, Cite::Place, Cite::TripExact(0)],
        RuleId::E015 => &[Cite::Place, Cite::StopKind(0)],
        RuleId::E016 => &[Cite::Place, Cite::Relationship, Cite::TripKnown(0)],
        RuleId::E017 => &[
            Cite::HeadBefore(Slot::HEADER_TIMESTAMP),
            Cite::Place,
            Cite::EntitiesChanged,
        ],
        RuleId::E018 => &[Cite::HeadBefore(Slot::HEADER_TIMESTAMP), Cite::Place],
        RuleId::E019 => &[
            Cite::TripId,
            Cite::Place,
            Cite::TripExact(0),
            Cite::OnGrid(0, 1),
        ],
        RuleId::E020 => &[Cite::Place],
        RuleId::E021 => &[Cite::Place],
        RuleId::E022 => &[
            Cite::Before(Slot::UPDATE_ARRIVAL_TIME),
            Cite::Before(Slot::UPDATE_DEPARTURE_TIME),
            Cite::Cell(Slot::UPDATE_ARRIVAL_TIME),
            Cite::Cell(Slot::UPDATE_DEPARTURE_TIME),
        ],
        RuleId::E023 => &[
            Cite::TripId,
            Cite::Place,
            Cite::TripExact(0),
            Cite::FirstArrival(0),
        ],
        RuleId::E024 => &[Cite::TripId, Cite::Place, Cite::TripDirection(0)],
        RuleId::E025 => &[Cite::Cell(Slot::UPDATE_ARRIVAL_TIME), Cite::Place],
        RuleId::E030 => &[
            Cite::Place,
            Cite::Cell(Slot::ALERT_TRIP_ID),
            Cite::TripRoute(1),
        ],
        RuleId::E031 => &[Cite::Place, Cite::Cell(Slot::ALERT_TRIP_ROUTE_ID)],
        RuleId::E032 => &[Cite::Place],
        RuleId::E033 => &[
            Cite::Place,
            Cite::Cell(Slot::ALERT_AGENCY_ID),
            Cite::Cell(Slot::ALERT_ROUTE_ID),
            Cite::Cell(Slot::ALERT_ROUTE_TYPE),
            Cite::Cell(Slot::ALERT_TRIP),
            Cite::Cell(Slot::ALERT_STOP_ID),
        ],
        RuleId::E034 => &[Cite::Place, Cite::AgencyKnown(0)],
        RuleId::E035 => &[Cite::TripId, Cite::Place, Cite::TripRoute(0)],
        RuleId::E036 => &[Cite::Before(Slot::UPDATE_STOP_SEQUENCE), Cite::Place],
        RuleId::E037 => &[Cite::Before(Slot::UPDATE_STOP_ID), Cite::Place],
        RuleId::E038 => &[Cite::Place],
        RuleId::E039 => &[Cite::Place],
        RuleId::E040 => &[
            Cite::Place,
            Cite::Cell(Slot::UPDATE_STOP_SEQUENCE),
            Cite::Cell(Slot::UPDATE_STOP_ID),
        ],
        RuleId::E041 => &[Cite::Place, Cite::Cell(Slot::UPDATE_TRIP_RELATIONSHIP)],
        RuleId::E042 => &[Cite::Cell(Slot::UPDATE_STOP_RELATIONSHIP), Cite::Place],
        RuleId::E043 => &[
            Cite::Place,
            Cite::Cell(Slot::UPDATE_STOP_RELATIONSHIP),
            Cite::Cell(Slot::UPDATE_ARRIVAL),
            Cite::Cell(Slot::UPDATE_DEPARTURE),
        ],
        RuleId::E044 => &[Cite::Place, Cite::Delay, Cite::Time],
        RuleId::E045 => &[
            Cite::Cell(Slot::UPDATE_TRIP_ID),
            Cite::Cell(Slot::UPDATE_STOP_SEQUENCE),
            Cite::Place,
            Cite::StopAt(0, 1),
        ],
        RuleId::E046 => &[
            Cite::Cell(Slot::UPDATE_TRIP_ID),
            Cite::Cell(Slot::UPDATE_STOP_SEQUENCE),
            Cite::Delay,
            Cite::Time,
            Cite::StopAt(0, 1),
            Cite::EventAt(0, 1),
        ],
        RuleId::E047 => &[
            Cite::TripId,
            Cite::Place,
            Cite::FirstVehicle(0),
            Cite::HasPair(0, 1),
        ],
        RuleId::E048 => &[Cite::Cell(Slot::HEADER_VERSION), Cite::Place],
        RuleId::E049 => &[Cite::Cell(Slot::HEADER_VERSION), Cite::Place],
        RuleId::E050 => &[Cite::Place, Cite::Moment],
        RuleId::E051 => &[
            Cite::Cell(Slot::UPDATE_TRIP_ID),
            Cite::Place,
            Cite::TripKnown(0),
            Cite::StopAt(0, 1),
        ],
        RuleId::E052 => &[Cite::Place, Cite::FirstId(0), Cite::FirstOccurrence(0)],
        RuleId::W001 => &[Cite::Holder, Cite::Place],
        RuleId::W002 => &[Cite::Holder, Cite::Place],
        RuleId::W003 => &[Cite::Place, Cite::AnyRow, Cite::HasId(0)],
        RuleId::W005 => &[
            Cite::Cell(Slot::UPDATE_TRIP_ID),
            Cite::Place,
            Cite::TripExact(0),
        ],
        RuleId::W006 => &[Cite::Cell(Slot::UPDATE), Cite::Place],
        RuleId::W007 => &[Cite::HeadBefore(Slot::HEADER_TIMESTAMP), Cite::Place],
        RuleId::W008 => &[Cite::Place, Cite::Moment],
        RuleId::W009 => &[Cite::Holder, Cite::Place],
        RuleId::X001 => &[Cite::Cell(Slot::VEHICLE_ID), Cite::Place, Cite::Peak(0)],
        RuleId::X002 => &[Cite::Place, Cite::Occurrence],
    }
}

/// The test on their values: all of these hold.
pub fn test(rule: RuleId) -> &'static [Atom]
    ensures { result.now ≡ test_of rule }
{
    match rule {
        RuleId::E001 => &[Atom::Outside(0, 1104537600, 4294967295)],
        RuleId::E002 => &[Atom::NotBelow(0, 1)],
        RuleId::E003 => &[Atom::Is(2, 0), Atom::IsNot(1, 1)],
        RuleId::E004 => &[Atom::Is(1, 0)],
        RuleId::E006 => &[Atom::Is(3, 0), Atom::AnyMissing(1, 2)],
        RuleId::E009 => &[Atom::Given(0), Atom::Missing(2), Atom::Is(3, 1)],
        RuleId::E011 => &[Atom::Missing(1)],
        RuleId::E012 => &[Atom::Below(1, 0)],
        RuleId::E013 => &[Atom::Is(2, 0), Atom::Given(1), Atom::IsNot(1, 2)],
        RuleId::E015 => &[Atom::Given(1), Atom::IsNot(1, 0)],
        RuleId::E016 => &[Atom::Is(2, 1), Atom::Is(1, 1)],
        RuleId::E017 => &[Atom::Equal(0, 1), Atom::Is(2, 1)],
        RuleId::E018 => &[Atom::Below(1, 0)],
        RuleId::E019 => &[Atom::Is(2, 1), Atom::IsTime(1), Atom::Is(3, 0)],
        RuleId::E020 => &[Atom::NotClock(0)],
        RuleId::E021 => &[Atom::NotDate(0)],
        RuleId::E022 => &[Atom::NotLater(0, 1, 2, 3)],
        RuleId::E023 => &[Atom::Missing(2), Atom::TimeDiffers(1, 3)],
        RuleId::E024 => &[Atom::Differ(1, 2)],
        RuleId::E025 => &[Atom::Below(1, 0)],
        RuleId::E030 => &[Atom::Differ(0, 2)],
        RuleId::E031 => &[Atom::Differ(0, 1)],
        RuleId::E032 => &[Atom::Is(0, 0)],
        RuleId::E033 => &[
            Atom::Given(0),
            Atom::Missing(1),
            Atom::Missing(2),
            Atom::Missing(3),
            Atom::Missing(4),
            Atom::Missing(5),
        ],
        RuleId::E034 => &[Atom::Is(1, 0)],
        RuleId::E035 => &[Atom::Differ(1, 2)],
        RuleId::E036 => &[Atom::Equal(0, 1)],
        RuleId::E037 => &[Atom::Equal(0, 1)],
        RuleId::E038 => &[Atom::NotVersion(0)],
        RuleId::E039 => &[Atom::Given(0)],
        RuleId::E040 => &[Atom::Given(0), Atom::Missing(1), Atom::Missing(2)],
        RuleId::E041 => &[Atom::Is(0, 0), Atom::IsNot(1, 3)],
        RuleId::E042 => &[Atom::Is(0, 2), Atom::Given(1)],
        RuleId::E043 => &[
            Atom::Given(0),
            Atom::IsNot(1, 1),
            Atom::IsNot(1, 2),
            Atom::Missing(2),
            Atom::Missing(3),
        ],
        RuleId::E044 => &[Atom::Given(0), Atom::Missing(1), Atom::Missing(2)],
        RuleId::E045 => &[Atom::Differ(2, 3)],
        RuleId::E046 => &[
            Atom::Given(2),
            Atom::Missing(3),
            Atom::Given(4),
            Atom::Missing(5),
        ],
        RuleId::E047 => &[Atom::Given(2), Atom::Is(3, 0)],
        RuleId::E048 => &[Atom::IsVersion2(0), Atom::Missing(1)],
        RuleId::E049 => &[Atom::IsVersion2(0), Atom::Missing(1)],
        RuleId::E050 => &[Atom::Above(0, 1, 60)],
        RuleId::E051 => &[Atom::Is(2, 1), Atom::Missing(3)],
        RuleId::E052 => &[Atom::NotItself(1, 2)],
        RuleId::W001 => &[Atom::Given(0), Atom::Missing(1)],
        RuleId::W002 => &[Atom::Given(0), Atom::Missing(1)],
        RuleId::W003 => &[Atom::Is(1, 1), Atom::Is(2, 0)],
        RuleId::W005 => &[Atom::Is(2, 0), Atom::Missing(1)],
        RuleId::W006 => &[Atom::Given(0), Atom::Missing(1)],
        RuleId::W007 => &[Atom::Above(1, 0, 35)],
        RuleId::W008 => &[Atom::Above(1, 0, 65)],
        RuleId::W009 => &[Atom::Given(0), Atom::Missing(1)],
        RuleId::X001 => &[Atom::Below(1, 2)],
        RuleId::X002 => &[Atom::AtLeast(1, 1)],
    }
}

/// The facts that a rule cites on a header.
pub fn head_cites(rule: RuleId) -> &'static [Cite]
    ensures cites { result.now ≡ head_cites_of rule }
    ensures few { length result.now ≤ 6 }
{
    match rule {
        RuleId::W001 => &[Cite::Cell(Slot::HEADER_VERSION), Cite::Place],
        _ => cites(rule),
    }
}

/// The test on their values.
pub fn head_test(rule: RuleId) -> &'static [Atom]
    ensures { result.now ≡ head_test_of rule }
{
    match rule {
        RuleId::W001 => &[Atom::NotVersion2(0), Atom::Missing(1)],
        _ => test(rule),
    }
}

/// The slots of a rule at a place: those on a header, or those of an entity.
pub fn slots_at(rule: RuleId, place: PlaceRef<'_>) -> &'static [Slot]
    ensures { result.now ≡ slots_at rule (place_value place.entry) }
{
    match place {
        PlaceRef::Head(_, _) => head_slots(rule),
        PlaceRef::Entity(_, _) => slots(rule),
    }
}

/// The facts that a rule cites at a place, in order. They are six at most.
pub fn cites_at(rule: RuleId, place: PlaceRef<'_>) -> &'static [Cite]
    ensures cites { result.now ≡ cites_at rule (place_value place.entry) }
    ensures few { length result.now ≤ 6 }
{
    match place {
        PlaceRef::Head(_, _) => head_cites(rule),
        PlaceRef::Entity(_, _) => cites(rule),
    }
}

/// The test on their values: all of these hold.
pub fn test_at(rule: RuleId, place: PlaceRef<'_>) -> &'static [Atom]
    ensures { result.now ≡ test_at rule (place_value place.entry) }
{
    match place {
        PlaceRef::Head(_, _) => head_test(rule),
        PlaceRef::Entity(_, _) => test(rule),
    }
}

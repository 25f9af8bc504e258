//! How facts are said.
//!
//! In a text `{0}`, `{1}` and `{2}` stand for the keys in quotes, `{p}` for the first key as a path, `{k}` for it as a kind, and `{v}` for the
//! value.

/// What a fact says, by its value.
pub struct Phrase {
    pub ask: &'static str,
    /// Where the value is 1.
    pub one: &'static str,
    /// Where it is missing.
    pub missing: &'static str,
    /// Where it is anything else.
    pub other: &'static str,
}

/// The phrase of each ask.
pub const PHRASES: &[Phrase] = &[
    Phrase {
        ask: "cell",
        one: "{p} is {v}",
        missing: "{p} is missing",
        other: "{p} is {v}",
    },
    Phrase {
        ask: "head_now",
        one: "{p} is {v}",
        missing: "{p} is missing",
        other: "{p} is {v}",
    },
    Phrase {
        ask: "head_before",
        one: "in the snapshot before, {p} was {v}",
        missing: "in the snapshot before, {p} was missing",
        other: "in the snapshot before, {p} was {v}",
    },
    Phrase {
        ask: "moment",
        one: "the snapshot was taken at {v}",
        missing: "the snapshot was taken at {v}",
        other: "the snapshot was taken at {v}",
    },
    Phrase {
        ask: "occurrence",
        one: "1 entity with its id stands before it",
        missing: "{v} entities with its id stand before it",
        other: "{v} entities with its id stand before it",
    },
    Phrase {
        ask: "entities_changed",
        one: "the entities changed",
        missing: "the entities didn't change",
        other: "the entities didn't change",
    },
    Phrase {
        ask: "trip_known",
        one: "the timetable has trip {0}",
        missing: "the timetable has no trip {0}",
        other: "the timetable has no trip {0}",
    },
    Phrase {
        ask: "route_known",
        one: "the timetable has route {0}",
        missing: "the timetable has no route {0}",
        other: "the timetable has no route {0}",
    },
    Phrase {
        ask: "agency_known",
        one: "the timetable has agency {0}",
        missing: "the timetable has no agency {0}",
        other: "the timetable has no agency {0}",
    },
    Phrase {
        ask: "stop_kind",
        one: "stop {0} has location_type 1",
        missing: "the timetable has no stop {0}",
        other: "stop {0} has location_type {v}",
    },
    Phrase {
        ask: "trip_route",
        one: "the timetable has trip {0} on route {v}",
        missing: "the timetable has no route of trip {0}",
        other: "the timetable has trip {0} on route {v}",
    },
    Phrase {
        ask: "trip_direction",
        one: "the timetable gives trip {0} the direction_id {v}",
        missing: "the timetable has no direction of trip {0}",
        other: "the timetable gives trip {0} the direction_id {v}",
    },
    Phrase {
        ask: "trip_exact",
        one: "trip {0} runs by headway, with exact_times {v}",
        missing: "trip {0} has no headways",
        other: "trip {0} runs by headway, with exact_times {v}",
    },
    Phrase {
        ask: "on_grid",
        one: "{1} is on the headway grid of trip {0}",
        missing: "{1} is not on the headway grid of trip {0}",
        other: "{1} is not on the headway grid of trip {0}",
    },
    Phrase {
        ask: "visits_twice",
        one: "trip {0} visits a stop twice",
        missing: "trip {0} visits no stop twice",
        other: "trip {0} visits no stop twice",
    },
    Phrase {
        ask: "first_arrival",
        one: "trip {0} first arrives at {v} s of its day",
        missing: "trip {0} has no first arrival",
        other: "trip {0} first arrives at {v} s of its day",
    },
    Phrase {
        ask: "stop_at",
        one: "at stop_sequence {1} of trip {0} the timetable has the stop {v}",
        missing: "at stop_sequence {1} of trip {0} the timetable has no stop",
        other: "at stop_sequence {1} of trip {0} the timetable has the stop {v}",
    },
    Phrase {
        ask: "arrival_at",
        one: "at stop_sequence {1} of trip {0} the timetable has the arrival {v} s",
        missing: "at stop_sequence {1} of trip {0} the timetable has no arrival",
        other: "at stop_sequence {1} of trip {0} the timetable has the arrival {v} s",
    },
    Phrase {
        ask: "departure_at",
        one: "at stop_sequence {1} of trip {0} the timetable has the departure {v} s",
        missing: "at stop_sequence {1} of trip {0} the timetable has no departure",
        other: "at stop_sequence {1} of trip {0} the timetable has the departure {v} s",
    },
    Phrase {
        ask: "first_vehicle",
        one: "the first {k} of trip {1} that names a vehicle names {v}",
        missing: "no {k} of trip {1} names a vehicle",
        other: "the first {k} of trip {1} that names a vehicle names {v}",
    },
    Phrase {
        ask: "has_pair",
        one: "a {k} gives trip {1} the vehicle {2}",
        missing: "no {k} gives trip {1} the vehicle {2}",
        other: "no {k} gives trip {1} the vehicle {2}",
    },
    Phrase {
        ask: "any_row",
        one: "there are {k}s",
        missing: "there are no {k}s",
        other: "there are no {k}s",
    },
    Phrase {
        ask: "has_trip",
        one: "a {k} is of trip {1}",
        missing: "no {k} is of trip {1}",
        other: "no {k} is of trip {1}",
    },
    Phrase {
        ask: "has_vehicle",
        one: "a {k} is of vehicle {1}",
        missing: "no {k} is of vehicle {1}",
        other: "no {k} is of vehicle {1}",
    },
    Phrase {
        ask: "first_id",
        one: "the first position of vehicle {1} in feed {0} is entity {v}",
        missing: "feed {0} has no position of vehicle {1}",
        other: "the first position of vehicle {1} in feed {0} is entity {v}",
    },
    Phrase {
        ask: "first_occurrence",
        one: "that is its occurrence {v}",
        missing: "that is its occurrence (none)",
        other: "that is its occurrence {v}",
    },
    Phrase {
        ask: "peak",
        one: "the latest time that vehicle {1} gave before in feed {0} is {v}",
        missing: "vehicle {1} gave no time before in feed {0}",
        other: "the latest time that vehicle {1} gave before in feed {0} is {v}",
    },
];

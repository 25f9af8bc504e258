//! Each rule's title, and what it means and how to mend it, as docs/rules.md says them. Written by tools/titles.py.

use rule_table::RuleId;

/// What is said of a rule.
struct RuleTexts {
    rule: RuleId,
    /// It in a few words.
    title: &'static str,
    /// What it means on a header, and how to mend it; empty where it is judged on none.
    on_header: &'static str,
    /// The same at an entity.
    at_entity: &'static str,
}

/// A rule in a few words.
pub fn title_of(rule: RuleId) -> &'static str {
    match texts_of(rule) {
        Some(texts) => texts.title,
        None => "",
    }
}

/// What a rule means where it breaks on a header, or at an entity.
pub fn meaning_of(rule: RuleId, is_on_header: bool) -> &'static str {
    match texts_of(rule) {
        Some(texts) => meaning_in(texts, is_on_header),
        None => "",
    }
}

// The text of the other place where this one has none.
fn meaning_in(texts: &'static RuleTexts, is_on_header: bool) -> &'static str {
    if texts.at_entity.is_empty() || is_on_header && !texts.on_header.is_empty() {
        texts.on_header
    } else {
        texts.at_entity
    }
}

fn texts_of(rule: RuleId) -> Option<&'static RuleTexts> {
    TEXTS.iter().find(|texts| texts.rule == rule)
}

const TEXTS: &[RuleTexts] = &[
    RuleTexts {
        rule: RuleId::E001,
        title: "A time isn't in POSIX seconds",
        on_header: "Every reader takes the feed for years old or far ahead. Write POSIX seconds, not milliseconds, and set the producer's clock.",
        at_entity: "A time that no clock shows. Write POSIX seconds, not milliseconds or seconds of the day.",
    },
    RuleTexts {
        rule: RuleId::E002,
        title: "Updates aren't in order of stop_sequence",
        on_header: "",
        at_entity: "Predictions in another order than the trip. Sort updates by stop_sequence.",
    },
    RuleTexts {
        rule: RuleId::E003,
        title: "The timetable doesn't have the trip",
        on_header: "",
        at_entity: "The trip is shown to nobody, since no schedule has it. Use the ids of the published timetable, or say ADDED.",
    },
    RuleTexts {
        rule: RuleId::E004,
        title: "The timetable doesn't have the route",
        on_header: "",
        at_entity: "An alert or a trip is tied to no line. Use the ids of routes.txt.",
    },
    RuleTexts {
        rule: RuleId::E006,
        title: "A trip by headway lacks start_time or start_date",
        on_header: "",
        at_entity: "Of a trip that runs every few minutes nobody knows which run is meant. Give both.",
    },
    RuleTexts {
        rule: RuleId::E009,
        title: "No stop_sequence where the trip visits a stop twice",
        on_header: "",
        at_entity: "Nobody knows which of the two visits is meant. Give stop_sequence.",
    },
    RuleTexts {
        rule: RuleId::E011,
        title: "The timetable doesn't have the stop",
        on_header: "",
        at_entity: "Nothing is shown at the stop. Use the ids of stops.txt.",
    },
    RuleTexts {
        rule: RuleId::E012,
        title: "An entity is newer than its header",
        on_header: "",
        at_entity: "The part is newer than the whole. Stamp the header when the feed is written.",
    },
    RuleTexts {
        rule: RuleId::E013,
        title: "A trip by headway isn't UNSCHEDULED",
        on_header: "",
        at_entity: "A trip by headway has no schedule to be SCHEDULED by. Write UNSCHEDULED.",
    },
    RuleTexts {
        rule: RuleId::E015,
        title: "The stop is no platform",
        on_header: "",
        at_entity: "Vehicles stop at platforms, not at stations or entrances. Name the platform.",
    },
    RuleTexts {
        rule: RuleId::E016,
        title: "An ADDED trip is in the timetable",
        on_header: "",
        at_entity: "Planners count the trip twice. An added trip wants an id of its own.",
    },
    RuleTexts {
        rule: RuleId::E017,
        title: "Entities changed, and the header's timestamp didn't",
        on_header: "A reader that compares timestamps misses the change. Raise the timestamp whenever the entities are written anew.",
        at_entity: "",
    },
    RuleTexts {
        rule: RuleId::E018,
        title: "The header's timestamp fell",
        on_header: "Riders see older data replace newer. Serve from one producer, or keep the last timestamp over a restart.",
        at_entity: "",
    },
    RuleTexts {
        rule: RuleId::E019,
        title: "start_time isn't on the trip's headway grid",
        on_header: "",
        at_entity: "The run isn't found in the schedule. Write a time of the headway's grid.",
    },
    RuleTexts {
        rule: RuleId::E020,
        title: "start_time isn't written as HH:MM:SS",
        on_header: "",
        at_entity: "The time can't be read. Write 08:05:00, and 25:10:00 after midnight.",
    },
    RuleTexts {
        rule: RuleId::E021,
        title: "start_date isn't written as YYYYMMDD",
        on_header: "",
        at_entity: "The day can't be read. Write 20231114.",
    },
    RuleTexts {
        rule: RuleId::E022,
        title: "Times don't rise from update to update",
        on_header: "",
        at_entity: "The vehicle seems to travel in time. Check the predictions for that trip.",
    },
    RuleTexts {
        rule: RuleId::E023,
        title: "start_time isn't the trip's first arrival",
        on_header: "",
        at_entity: "The trip seems to start at another time than planned. Write the schedule's start, or leave it out.",
    },
    RuleTexts {
        rule: RuleId::E024,
        title: "direction_id isn't the trip's in the timetable",
        on_header: "",
        at_entity: "Riders on the wrong side of the street. Take the direction from trips.txt.",
    },
    RuleTexts {
        rule: RuleId::E025,
        title: "A departure is before its arrival",
        on_header: "",
        at_entity: "Riders would miss it. Check the predictions for that stop.",
    },
    RuleTexts {
        rule: RuleId::E030,
        title: "An alert's route isn't its trip's in the timetable",
        on_header: "",
        at_entity: "The alert is shown on a line that the trip isn't of. Make them agree.",
    },
    RuleTexts {
        rule: RuleId::E031,
        title: "An alert's route isn't its trip descriptor's",
        on_header: "",
        at_entity: "As E030, within the alert.",
    },
    RuleTexts {
        rule: RuleId::E032,
        title: "An alert has no informed_entity",
        on_header: "",
        at_entity: "The alert is shown to nobody. Say whom it concerns.",
    },
    RuleTexts {
        rule: RuleId::E033,
        title: "An informed_entity selects nothing",
        on_header: "",
        at_entity: "A selector that selects nothing. Fill one in.",
    },
    RuleTexts {
        rule: RuleId::E034,
        title: "The timetable doesn't have the agency",
        on_header: "",
        at_entity: "The alert is shown to nobody. Use the ids of agency.txt.",
    },
    RuleTexts {
        rule: RuleId::E035,
        title: "route_id isn't the trip's in the timetable",
        on_header: "",
        at_entity: "The trip is shown on another line. Take the route from trips.txt.",
    },
    RuleTexts {
        rule: RuleId::E036,
        title: "Two updates in a row have one stop_sequence",
        on_header: "",
        at_entity: "One stop is told twice. Write one update for each stop.",
    },
    RuleTexts {
        rule: RuleId::E037,
        title: "Two updates in a row have one stop_id",
        on_header: "",
        at_entity: "As E036, by the stop's id.",
    },
    RuleTexts {
        rule: RuleId::E038,
        title: "The version is neither 1.0 nor 2.0",
        on_header: "A reader can't know which rules the feed follows. Write the version of the reference.",
        at_entity: "",
    },
    RuleTexts {
        rule: RuleId::E039,
        title: "is_deleted is given in a whole feed",
        on_header: "",
        at_entity: "It has a meaning in DIFFERENTIAL feeds alone. Leave the entity out instead.",
    },
    RuleTexts {
        rule: RuleId::E040,
        title: "An update has neither stop_sequence nor stop_id",
        on_header: "",
        at_entity: "A prediction for no stop. Give one of them.",
    },
    RuleTexts {
        rule: RuleId::E041,
        title: "A trip update has no stop_time_update",
        on_header: "",
        at_entity: "A trip update that says nothing. Add updates, or leave it out.",
    },
    RuleTexts {
        rule: RuleId::E042,
        title: "NO_DATA with an arrival or departure",
        on_header: "",
        at_entity: "Two answers at once. Drop the event, or the NO_DATA.",
    },
    RuleTexts {
        rule: RuleId::E043,
        title: "An update has neither arrival nor departure",
        on_header: "",
        at_entity: "A stop without a prediction. Give an event, or say SKIPPED or NO_DATA.",
    },
    RuleTexts {
        rule: RuleId::E044,
        title: "An arrival or departure has neither time nor delay",
        on_header: "",
        at_entity: "An event without a time. Give one of them.",
    },
    RuleTexts {
        rule: RuleId::E045,
        title: "The stop isn't the timetable's at that stop_sequence",
        on_header: "",
        at_entity: "Riders wait at another stop. Take stop_id and stop_sequence from one row of stop_times.txt.",
    },
    RuleTexts {
        rule: RuleId::E046,
        title: "A delay where the timetable has no time",
        on_header: "",
        at_entity: "A delay against nothing gives no time. Write the time.",
    },
    RuleTexts {
        rule: RuleId::E047,
        title: "Update and position give a trip different vehicles",
        on_header: "",
        at_entity: "Riders see two vehicles on one trip. Feed both from one assignment.",
    },
    RuleTexts {
        rule: RuleId::E048,
        title: "The header has no timestamp, in version 2.0",
        on_header: "Nobody can tell how old the feed is. Version 2.0 wants it: fill it in.",
        at_entity: "",
    },
    RuleTexts {
        rule: RuleId::E049,
        title: "The header has no incrementality, in version 2.0",
        on_header: "A reader can't know whether entities that aren't there are gone. Write FULL_DATASET.",
        at_entity: "",
    },
    RuleTexts {
        rule: RuleId::E050,
        title: "A timestamp is in the future",
        on_header: "The feed comes from the future, so arrivals seem nearer than they are. Set the clock.",
        at_entity: "Data from the future. Set the vehicle's or the server's clock.",
    },
    RuleTexts {
        rule: RuleId::E051,
        title: "The trip doesn't have the stop_sequence",
        on_header: "",
        at_entity: "The prediction is dropped. Take the numbers from stop_times.txt.",
    },
    RuleTexts {
        rule: RuleId::E052,
        title: "Two vehicle positions have one vehicle",
        on_header: "",
        at_entity: "One bus in two places. Write one position for each vehicle.",
    },
    RuleTexts {
        rule: RuleId::W001,
        title: "A timestamp is missing",
        on_header: "As E048, where the version doesn't demand it. Fill it in.",
        at_entity: "Riders can't tell a fresh position from an old one. Fill it in.",
    },
    RuleTexts {
        rule: RuleId::W002,
        title: "A vehicle's id is missing",
        on_header: "",
        at_entity: "Planners can't follow a vehicle from trip to trip. Give each vehicle an id that stays.",
    },
    RuleTexts {
        rule: RuleId::W003,
        title: "A trip or vehicle has no message of the other kind",
        on_header: "",
        at_entity: "A prediction without a vehicle, or a vehicle without a prediction. Publish both from the same trips.",
    },
    RuleTexts {
        rule: RuleId::W005,
        title: "A trip by headway has no vehicle",
        on_header: "",
        at_entity: "Runs by headway are told apart by their vehicles. Give the vehicle.",
    },
    RuleTexts {
        rule: RuleId::W006,
        title: "A trip update has no trip_id",
        on_header: "",
        at_entity: "Predictions for no trip that can be looked up. Name the trip.",
    },
    RuleTexts {
        rule: RuleId::W007,
        title: "The header's timestamp rose by more than 35 s",
        on_header: "Riders see positions jump. Publish at least every 30 seconds.",
        at_entity: "",
    },
    RuleTexts {
        rule: RuleId::W008,
        title: "The feed is more than 65 s old",
        on_header: "The feed is stale when it is fetched: look for a cache or a stuck producer.",
        at_entity: "",
    },
    RuleTexts {
        rule: RuleId::W009,
        title: "schedule_relationship is missing",
        on_header: "",
        at_entity: "Readers guess SCHEDULED. Say so.",
    },
    RuleTexts {
        rule: RuleId::X001,
        title: "A vehicle's timestamp is below an earlier one",
        on_header: "",
        at_entity: "The bus jumps back on the map to where it was before. Let one producer write a vehicle, send no old position again, and set the vehicle's clock.",
    },
    RuleTexts {
        rule: RuleId::X002,
        title: "Two entities have one id",
        on_header: "",
        at_entity: "Readers keep one of the two and drop the other. Make ids unique in a snapshot.",
    },
];

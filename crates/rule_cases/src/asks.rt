//! What is asked, by its words.

use crate::paths::path_of;
use cases::word;
use rule_table::{AskRef, Kind};
use std::alloc::{AllocError, Global};

// An ask of the feeds' cells.
fn of_feeds(alloc: Global, words: &[String]) -> Result<Option<AskRef<'static>>, AllocError> {
    let path = path_of(alloc, word(words, 1))?;
    Ok(match (word(words, 0), path) {
        ("cell", Some(path)) => Some(AskRef::Cell(path)),
        ("head_now", Some(path)) => Some(AskRef::HeadNow(path.slot)),
        ("head_before", Some(path)) => Some(AskRef::HeadBefore(path.slot)),
        ("moment", _) => Some(AskRef::Moment),
        ("occurrence", _) => Some(AskRef::Occurrence),
        ("entities_changed", _) => Some(AskRef::EntitiesChanged),
        _ => None,
    })
}

// An ask of the timetable.
fn of_timetable(words: &[String]) -> Option<AskRef<'_>> {
    let id = word(words, 1);
    let sequence = word(words, 2).parse().unwrap_or(0);
    match word(words, 0) {
        "trip_known" => Some(AskRef::TripKnown(id)),
        "route_known" => Some(AskRef::RouteKnown(id)),
        "agency_known" => Some(AskRef::AgencyKnown(id)),
        "stop_kind" => Some(AskRef::StopKind(id)),
        "trip_route" => Some(AskRef::TripRoute(id)),
        "trip_direction" => Some(AskRef::TripDirection(id)),
        "trip_exact" => Some(AskRef::TripExact(id)),
        "on_grid" => Some(AskRef::OnGrid(id, word(words, 2))),
        "visits_twice" => Some(AskRef::VisitsTwice(id)),
        "first_arrival" => Some(AskRef::FirstArrival(id)),
        "stop_at" => Some(AskRef::StopAt(id, sequence)),
        "arrival_at" => Some(AskRef::ArrivalAt(id, sequence)),
        "departure_at" => Some(AskRef::DepartureAt(id, sequence)),
        _ => None,
    }
}

fn kind(words: &[String]) -> Kind {
    match word(words, 1) {
        "trip_update" => Kind::TripUpdate,
        _ => Kind::Vehicle,
    }
}

// An ask of the other messages.
fn of_messages(words: &[String]) -> Option<AskRef<'_>> {
    let kind = kind(words);
    let feed = word(words, 1).parse().unwrap_or(0);
    let id = word(words, 2);
    match word(words, 0) {
        "first_vehicle" => Some(AskRef::FirstVehicle(kind, id)),
        "has_pair" => Some(AskRef::HasPair(kind, id, word(words, 3))),
        "any_row" => Some(AskRef::AnyRow(kind)),
        "has_trip" => Some(AskRef::HasTrip(kind, id)),
        "has_vehicle" => Some(AskRef::HasVehicle(kind, id)),
        "first_id" => Some(AskRef::FirstId(feed, id)),
        "first_occurrence" => Some(AskRef::FirstOccurrence(feed, id)),
        "peak" => Some(AskRef::Peak(feed, id)),
        _ => None,
    }
}

/// The ask of words such as `head_now header.timestamp`.
pub fn ask_of(alloc: Global, words: &[String]) -> Result<Option<AskRef<'_>>, AllocError> {
    if let Some(ask) = of_feeds(alloc, words)? {
        return Ok(Some(ask));
    }
    match of_timetable(words) {
        Some(ask) => Ok(Some(ask)),
        None => Ok(of_messages(words)),
    }
}

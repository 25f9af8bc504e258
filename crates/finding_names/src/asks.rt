//! Asks by their names and keys.
ghost use Rattle.std.specs.Prelude.{◌≡◌, option_map, option_copied};
ghost use Rattle.rule_table.specs.Asked.{ask_value};
ghost use Rattle.finding_names.specs.Asks.{ask_of, without_keys, only, only_path, only_kind, two_texts, text_and_number, kind_and_text, kind_and_texts, feed_and_text};

use crate::ask_name::AskName;
use crate::kinds::kind_named;
use crate::numbers::{u8_named, u32_named};
use crate::paths::path_named;
use feed_values::{Path, Text};
use rule_table::{AskRef, Kind};

/// The ask of this name, with these texts as its keys. None where they are no keys of such an ask.
pub fn ask_of(name: AskName, keys: &[Text]) -> Option<AskRef<'_>>
    ensures { option_map ask_value result ≡ ask_of name keys.now }
{
    let ask = match name {
        AskName::Cell => AskRef::Cell(only_path(keys)?),
        AskName::HeadNow => AskRef::HeadNow(only_path(keys)?.slot),
        AskName::HeadBefore => AskRef::HeadBefore(only_path(keys)?.slot),
        AskName::Moment => without_keys(keys, AskRef::Moment)?,
        AskName::Occurrence => without_keys(keys, AskRef::Occurrence)?,
        AskName::EntitiesChanged => without_keys(keys, AskRef::EntitiesChanged)?,
        AskName::TripKnown => AskRef::TripKnown(only(keys)?),
        AskName::RouteKnown => AskRef::RouteKnown(only(keys)?),
        AskName::AgencyKnown => AskRef::AgencyKnown(only(keys)?),
        AskName::StopKind => AskRef::StopKind(only(keys)?),
        AskName::TripRoute => AskRef::TripRoute(only(keys)?),
        AskName::TripDirection => AskRef::TripDirection(only(keys)?),
        AskName::TripExact => AskRef::TripExact(only(keys)?),
        AskName::OnGrid => {
            let (trip, time) = two_texts(keys)?;
            AskRef::OnGrid(trip, time)
        }
        AskName::VisitsTwice => AskRef::VisitsTwice(only(keys)?),
        AskName::FirstArrival => AskRef::FirstArrival(only(keys)?),
        AskName::StopAt => {
            let (trip, sequence) = text_and_number(keys)?;
            AskRef::StopAt(trip, sequence)
        }
        AskName::ArrivalAt => {
            let (trip, sequence) = text_and_number(keys)?;
            AskRef::ArrivalAt(trip, sequence)
        }
        AskName::DepartureAt => {
            let (trip, sequence) = text_and_number(keys)?;
            AskRef::DepartureAt(trip, sequence)
        }
        AskName::FirstVehicle => {
            let (kind, trip) = kind_and_text(keys)?;
            AskRef::FirstVehicle(kind, trip)
        }
        AskName::HasPair => {
            let (kind, trip, vehicle) = kind_and_texts(keys)?;
            AskRef::HasPair(kind, trip, vehicle)
        }
        AskName::AnyRow => AskRef::AnyRow(only_kind(keys)?),
        AskName::HasTrip => {
            let (kind, trip) = kind_and_text(keys)?;
            AskRef::HasTrip(kind, trip)
        }
        AskName::HasVehicle => {
            let (kind, vehicle) = kind_and_text(keys)?;
            AskRef::HasVehicle(kind, vehicle)
        }
        AskName::FirstId => {
            let (feed, vehicle) = feed_and_text(keys)?;
            AskRef::FirstId(feed, vehicle)
        }
        AskName::FirstOccurrence => {
            let (feed, vehicle) = feed_and_text(keys)?;
            AskRef::FirstOccurrence(feed, vehicle)
        }
        AskName::Peak => {
            let (feed, vehicle) = feed_and_text(keys)?;
            AskRef::Peak(feed, vehicle)
        }
    };
    Some(ask)
}

// An ask that has no keys.
fn without_keys<'a>(keys: &[Text], ask: AskRef<'a>) -> Option<AskRef<'a>>
    ensures { option_map ask_value result ≡ without_keys (ask_value ask.entry) keys.now }
{
    match keys {
        [] => Some(ask),
        _ => None,
    }
}

// The only key.
fn only(keys: &[Text]) -> Option<&str>
    ensures { option_copied result ≡ only keys.now }
{
    match keys {
        [key] => Some(key.as_str()),
        _ => None,
    }
}

// The only key, as a path.
fn only_path(keys: &[Text]) -> Option<Path>
    ensures { result ≡ only_path keys.now }
{
    path_named(only(keys)?)
}

// The only key, as a kind.
fn only_kind(keys: &[Text]) -> Option<Kind>
    ensures { result ≡ only_kind keys.now }
{
    kind_named(only(keys)?)
}

// Two keys.
fn two_texts(keys: &[Text]) -> Option<(&str, &str)>
    ensures { option_map (λ pair. (pair.0.now, pair.1.now)) result ≡ two_texts keys.now }
{
    match keys {
        [first, second] => Some((first.as_str(), second.as_str())),
        _ => None,
    }
}

// Two keys, the second as a number.
fn text_and_number(keys: &[Text]) -> Option<(&str, u32)>
    ensures { option_map (λ pair. (pair.0.now, pair.1)) result ≡ text_and_number keys.now }
{
    let (text, number) = two_texts(keys)?;
    Some((text, u32_named(number)?))
}

// Two keys, the first as a kind.
fn kind_and_text(keys: &[Text]) -> Option<(Kind, &str)>
    ensures { option_map (λ pair. (pair.0, pair.1.now)) result ≡ kind_and_text keys.now }
{
    let (kind, text) = two_texts(keys)?;
    Some((kind_named(kind)?, text))
}

// Two keys, the first as the number of a feed.
fn feed_and_text(keys: &[Text]) -> Option<(u8, &str)>
    ensures { option_map (λ pair. (pair.0, pair.1.now)) result ≡ feed_and_text keys.now }
{
    let (feed, text) = two_texts(keys)?;
    Some((u8_named(feed)?, text))
}

// Three keys, the first as a kind.
fn kind_and_texts(keys: &[Text]) -> Option<(Kind, &str, &str)>
    ensures { option_map (λ three. (three.0, three.1.now, three.2.now)) result ≡ kind_and_texts keys.now }
{
    match keys {
        [kind, first, second] => Some((
            kind_named(kind.as_str())?,
            first.as_str(),
            second.as_str(),
        )),
        _ => None,
    }
}

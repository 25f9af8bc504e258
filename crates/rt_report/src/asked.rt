//! Asks as JSON: their names, and their keys as texts.
ghost use Rattle.std.specs.Prelude.{◌≡◌, [], ◌∷◌, OnOk, map, decimal};
ghost use Rattle.json.specs.Token as token;
ghost use Rattle.feed_values.specs.Cells.{path_text};
ghost use Rattle.rt_report.specs.Findings.{kind_name, ask_name, ask_keys};
ghost use Rattle.rt_report.specs.Tokens.{Adds};

use crate::tokens::push_item;
use feed_values::{Path, Slot};
use json::Writer;
use rule_table::{Ask, Kind};
use std::alloc::{AllocError, Global};

fn kind_name(kind: Kind) -> &'static str
    ensures { result.now ≡ kind_name kind }
{
    match kind {
        Kind::TripUpdate => "trip_update",
        Kind::Vehicle => "vehicle",
    }
}

/// The name of an ask, such as `head_now`.
pub(crate) fn ask_name(ask: &Ask) -> &'static str
    ensures { result.now ≡ ask_name ask.now }
{
    match ask {
        Ask::Cell(_) => "cell",
        Ask::HeadNow(_) => "head_now",
        Ask::HeadBefore(_) => "head_before",
        Ask::Moment => "moment",
        Ask::Occurrence => "occurrence",
        Ask::EntitiesChanged => "entities_changed",
        Ask::TripKnown(_) => "trip_known",
        Ask::RouteKnown(_) => "route_known",
        Ask::AgencyKnown(_) => "agency_known",
        Ask::StopKind(_) => "stop_kind",
        Ask::TripRoute(_) => "trip_route",
        Ask::TripDirection(_) => "trip_direction",
        Ask::TripExact(_) => "trip_exact",
        Ask::OnGrid(_, _) => "on_grid",
        Ask::VisitsTwice(_) => "visits_twice",
        Ask::FirstArrival(_) => "first_arrival",
        Ask::StopAt(_, _) => "stop_at",
        Ask::ArrivalAt(_, _) => "arrival_at",
        Ask::DepartureAt(_, _) => "departure_at",
        Ask::FirstVehicle(_, _) => "first_vehicle",
        Ask::HasPair(_, _, _) => "has_pair",
        Ask::AnyRow(_) => "any_row",
        Ask::HasTrip(_, _) => "has_trip",
        Ask::HasVehicle(_, _) => "has_vehicle",
        Ask::FirstId(_, _) => "first_id",
        Ask::FirstOccurrence(_, _) => "first_occurrence",
        Ask::Peak(_, _) => "peak",
    }
}

fn push_path(alloc: Global, out: &mut Writer, path: Path) -> Result<(), AllocError>
    ensures { OnOk result (Adds out.old out.new (token.string (path_text path.slot path.index) ∷ [])) }
{
    let text = path.text(alloc)?;
    push_item(out, text.as_str())
}

fn push_head(alloc: Global, out: &mut Writer, slot: Slot) -> Result<(), AllocError>
    ensures { OnOk result (Adds out.old out.new (token.string (path_text slot 0) ∷ [])) }
{
    push_path(alloc, out, Path { slot, index: 0 })
}

fn push_two(out: &mut Writer, first: &str, second: &str) -> Result<(), AllocError>
    ensures { OnOk result (Adds out.old out.new (token.string first.now ∷ token.string second.now ∷ [])) }
{
    push_item(out, first)?;
    push_item(out, second)
}

fn push_three(out: &mut Writer, first: &str, second: &str, third: &str) -> Result<(), AllocError>
    ensures { OnOk result (Adds out.old out.new (token.string first.now ∷ token.string second.now ∷ token.string third.now ∷ [])) }
{
    push_item(out, first)?;
    push_two(out, second, third)
}

/// A text, and behind it a number in decimal.
fn push_numbered(out: &mut Writer, text: &str, number: u32) -> Result<(), AllocError>
    ensures { OnOk result (Adds out.old out.new (token.string text.now ∷ token.string (decimal number) ∷ [])) }
{
    push_item(out, text)?;
    out.quoted_u64(number as u64)
}

/// A number in decimal, and behind it a text.
fn push_behind_number(out: &mut Writer, number: u8, text: &str) -> Result<(), AllocError>
    ensures { OnOk result (Adds out.old out.new (token.string (decimal number) ∷ token.string text.now ∷ [])) }
{
    out.quoted_u64(number as u64)?;
    push_item(out, text)
}

/// Appends the keys of an ask, as items.
pub(crate) fn push_keys(alloc: Global, out: &mut Writer, ask: &Ask) -> Result<(), AllocError>
    ensures { OnOk result (Adds out.old out.new (map token.string (ask_keys ask.now))) }
{
    match ask {
        Ask::Cell(path) => push_path(alloc, out, *path),
        Ask::HeadNow(slot) | Ask::HeadBefore(slot) => push_head(alloc, out, *slot),
        Ask::Moment | Ask::Occurrence | Ask::EntitiesChanged => Ok(()),
        Ask::TripKnown(id)
        | Ask::RouteKnown(id)
        | Ask::AgencyKnown(id)
        | Ask::StopKind(id)
        | Ask::TripRoute(id)
        | Ask::TripDirection(id)
        | Ask::TripExact(id)
        | Ask::VisitsTwice(id)
        | Ask::FirstArrival(id) => push_item(out, id.as_str()),
        Ask::OnGrid(trip, time) => push_two(out, trip.as_str(), time.as_str()),
        Ask::StopAt(trip, n) | Ask::ArrivalAt(trip, n) | Ask::DepartureAt(trip, n) => {
            push_numbered(out, trip.as_str(), *n)
        }
        Ask::AnyRow(kind) => push_item(out, kind_name(*kind)),
        Ask::FirstVehicle(kind, id) | Ask::HasTrip(kind, id) | Ask::HasVehicle(kind, id) => {
            push_two(out, kind_name(*kind), id.as_str())
        }
        Ask::HasPair(kind, trip, vehicle) => {
            push_three(out, kind_name(*kind), trip.as_str(), vehicle.as_str())
        }
        Ask::FirstId(feed, id) | Ask::FirstOccurrence(feed, id) | Ask::Peak(feed, id) => {
            push_behind_number(out, *feed, id.as_str())
        }
    }
}

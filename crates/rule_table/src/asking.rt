//! What a row's entries ask, and the facts that answer.
ghost use Rattle.std.specs.Prelude.{◌≡◌, map, List, IfSome, Some};
ghost use Rattle.std.specs.Option.{option_map};
ghost use Rattle.feed_values.specs.Cells.{cell_value};
ghost use Rattle.rule_table.specs.Asked.{ask_value, fact_value, place_value, path_at, place_ask, cell_ask, feed_of, trip_id_of, start_time_of, start_date_of, relationship_of, delay_of, time_of, holder_of, event_ask, other_kind, id_ask, ask_at, text_at, sequence_at, value_at};
ghost use Rattle.rule_table.specs.Keys.{keys_value, text_keys, two_keys, stop_keys, keys_at, ask_with};
ghost use Rattle.rule_table.specs.Cited.{fact_at, answered, value_from};
ghost use Rattle.rule_table.specs.declared.ask.Ask.{Ask};
ghost use Rattle.rule_table.specs.declared.ask.Ask.TheVariants as Asks;
ghost use Rattle.feed_values.specs.declared.cell_value.CellValue.{CellValue};

use crate::answers::Answers;
use crate::ask::AskRef;
use crate::cells::{is_in_range, sequence_at, text_at};
use crate::fact::FactRef;
use crate::kind::Kind;
use crate::place::PlaceRef;
use crate::row::Cite;
use feed_values::{CellRef, Path, Slot};

pub(crate) fn path_of(slot: Slot, index: u32) -> Path
    ensures { result ≡ path_at slot index }
{
    if slot.has_index() {
        Path { slot, index }
    } else {
        Path { slot, index: 0 }
    }
}

/// The trip_id that goes with a slot.
fn trip_id(slot: Slot) -> Slot
    ensures { result ≡ trip_id_of slot }
{
    match slot {
        Slot::UPDATE_START_TIME
        | Slot::UPDATE_START_DATE
        | Slot::UPDATE_TRIP_RELATIONSHIP
        | Slot::UPDATE_ROUTE_ID
        | Slot::UPDATE_DIRECTION_ID
        | Slot::UPDATE_VEHICLE_ID => Slot::UPDATE_TRIP_ID,
        Slot::VEHICLE_START_TIME
        | Slot::VEHICLE_START_DATE
        | Slot::VEHICLE_TRIP_RELATIONSHIP
        | Slot::VEHICLE_ROUTE_ID
        | Slot::VEHICLE_DIRECTION_ID
        | Slot::VEHICLE_ID => Slot::VEHICLE_TRIP_ID,
        Slot::ALERT_START_TIME
        | Slot::ALERT_START_DATE
        | Slot::ALERT_TRIP_RELATIONSHIP
        | Slot::ALERT_TRIP_ROUTE_ID
        | Slot::ALERT_DIRECTION_ID => Slot::ALERT_TRIP_ID,
        _ => slot,
    }
}

/// The start_time of a trip_id's descriptor.
fn start_time(slot: Slot) -> Slot
    ensures { result ≡ start_time_of slot }
{
    match slot {
        Slot::UPDATE_TRIP_ID => Slot::UPDATE_START_TIME,
        Slot::VEHICLE_TRIP_ID => Slot::VEHICLE_START_TIME,
        _ => slot,
    }
}

/// The start_date of a trip_id's descriptor.
fn start_date(slot: Slot) -> Slot
    ensures { result ≡ start_date_of slot }
{
    match slot {
        Slot::UPDATE_TRIP_ID => Slot::UPDATE_START_DATE,
        Slot::VEHICLE_TRIP_ID => Slot::VEHICLE_START_DATE,
        _ => slot,
    }
}

/// The schedule_relationship of a trip_id's descriptor.
fn relationship(slot: Slot) -> Slot
    ensures { result ≡ relationship_of slot }
{
    match slot {
        Slot::UPDATE_TRIP_ID => Slot::UPDATE_TRIP_RELATIONSHIP,
        Slot::VEHICLE_TRIP_ID => Slot::VEHICLE_TRIP_RELATIONSHIP,
        Slot::ALERT_TRIP_ID => Slot::ALERT_TRIP_RELATIONSHIP,
        _ => slot,
    }
}

/// The delay of an event.
fn delay(slot: Slot) -> Slot
    ensures { result ≡ delay_of slot }
{
    match slot {
        Slot::UPDATE_ARRIVAL => Slot::UPDATE_ARRIVAL_DELAY,
        Slot::UPDATE_DEPARTURE => Slot::UPDATE_DEPARTURE_DELAY,
        _ => slot,
    }
}

/// The time of an event.
fn time(slot: Slot) -> Slot
    ensures { result ≡ time_of slot }
{
    match slot {
        Slot::UPDATE_ARRIVAL => Slot::UPDATE_ARRIVAL_TIME,
        Slot::UPDATE_DEPARTURE => Slot::UPDATE_DEPARTURE_TIME,
        _ => slot,
    }
}

/// The message in which a field is wanted.
fn holder(slot: Slot) -> Slot
    ensures { result ≡ holder_of slot }
{
    match slot {
        Slot::UPDATE_TRIP_RELATIONSHIP | Slot::UPDATE_VEHICLE_ID | Slot::UPDATE_TIMESTAMP =>
            Slot::UPDATE,
        Slot::UPDATE_STOP_RELATIONSHIP => Slot::UPDATE_STOP,
        Slot::VEHICLE_TRIP_RELATIONSHIP => Slot::VEHICLE_TRIP,
        Slot::VEHICLE_ID | Slot::VEHICLE_TIMESTAMP => Slot::VEHICLE,
        _ => slot,
    }
}

fn event<'a>(slot: Slot, trip: &'a str, sequence: u32) -> AskRef<'a>
    ensures { ask_value result ≡ event_ask slot trip.now sequence }
{
    match slot {
        Slot::UPDATE_DEPARTURE => AskRef::DepartureAt(trip, sequence),
        _ => AskRef::ArrivalAt(trip, sequence),
    }
}

/// The other kind than that of a slot's message.
fn other(slot: Slot) -> Kind
    ensures { result ≡ other_kind slot }
{
    match slot {
        Slot::VEHICLE_TRIP_ID | Slot::VEHICLE_ID => Kind::TripUpdate,
        _ => Kind::Vehicle,
    }
}

fn has_id<'a>(slot: Slot, id: &'a str) -> AskRef<'a>
    ensures { ask_value result ≡ id_ask slot id.now }
{
    match slot {
        Slot::UPDATE_TRIP_ID => AskRef::HasTrip(Kind::Vehicle, id),
        Slot::VEHICLE_TRIP_ID => AskRef::HasTrip(Kind::TripUpdate, id),
        Slot::VEHICLE_ID => AskRef::HasVehicle(Kind::TripUpdate, id),
        _ => AskRef::HasVehicle(Kind::Vehicle, id),
    }
}

fn feed(place: PlaceRef<'_>) -> u8
    ensures { result ≡ feed_of (place_value place.entry) }
{
    match place {
        PlaceRef::Head(feed, _) => feed,
        PlaceRef::Entity(key, _) => key.feed,
    }
}

/// Asks for the cell of the place.
fn own_cell(place: PlaceRef<'_>) -> AskRef<'static>
    ensures { ask_value result ≡ place_ask (place_value place.entry) }
{
    match place {
        PlaceRef::Head(_, slot) => AskRef::HeadNow(slot),
        PlaceRef::Entity(_, path) => AskRef::Cell(path),
    }
}

/// Asks for the cell of a slot of the place's header or entity.
fn cell(place: PlaceRef<'_>, slot: Slot, index: u32) -> AskRef<'static>
    ensures { ask_value result ≡ cell_ask (place_value place.entry) slot index }
{
    match place {
        PlaceRef::Head(_, _) => AskRef::HeadNow(slot),
        PlaceRef::Entity(_, _) => AskRef::Cell(path_of(slot, index)),
    }
}

/// The texts and the number of a stop that an entry names. What it doesn't name is empty or 0.
#[derive(Clone, Copy)]
struct Keys<'a> {
    text: &'a str,
    other: &'a str,
    sequence: u32,
}

fn text_keys<'a>(cells: &[CellRef<'a>], k: usize) -> Option<Keys<'a>>
    ensures { option_map keys_value result ≡ text_keys (text_at (map cell_value cells.now) k) }
{
    match text_at(cells, k) {
        Some(text) => Some(Keys {
            text,
            other: "",
            sequence: 0,
        }),
        None => None,
    }
}

fn two_keys<'a>(cells: &[CellRef<'a>], j: usize, k: usize) -> Option<Keys<'a>>
    ensures { option_map keys_value result ≡ two_keys (text_at (map cell_value cells.now) j) (text_at (map cell_value cells.now) k) }
{
    match (text_at(cells, j), text_at(cells, k)) {
        (Some(text), Some(other)) => Some(Keys {
            text,
            other,
            sequence: 0,
        }),
        _ => None,
    }
}

fn stop_keys<'a>(cells: &[CellRef<'a>], j: usize, k: usize) -> Option<Keys<'a>>
    ensures { option_map keys_value result ≡ stop_keys (text_at (map cell_value cells.now) j) (sequence_at (map cell_value cells.now) k) }
{
    match (text_at(cells, j), sequence_at(cells, k)) {
        (Some(text), Some(sequence)) => Some(Keys {
            text,
            other: "",
            sequence,
        }),
        _ => None,
    }
}

/// The keys that an entry names among the cells that were cited before it. None where one isn't there.
fn keys_of<'a>(cells: &[CellRef<'a>], cite: Cite) -> Option<Keys<'a>>
    ensures { option_map keys_value result ≡ keys_at (map cell_value cells.now) cite }
{
    match cite {
        Cite::TripKnown(k)
        | Cite::RouteKnown(k)
        | Cite::AgencyKnown(k)
        | Cite::StopKind(k)
        | Cite::TripRoute(k)
        | Cite::TripDirection(k)
        | Cite::TripExact(k)
        | Cite::VisitsTwice(k)
        | Cite::FirstArrival(k)
        | Cite::FirstVehicle(k)
        | Cite::HasId(k)
        | Cite::FirstId(k)
        | Cite::FirstOccurrence(k)
        | Cite::Peak(k) => text_keys(cells, k),
        Cite::OnGrid(j, k) | Cite::HasPair(j, k) => two_keys(cells, j, k),
        Cite::StopAt(j, k) | Cite::EventAt(j, k) => stop_keys(cells, j, k),
        _ => Some(Keys {
            text: "",
            other: "",
            sequence: 0,
        }),
    }
}

/// What an entry asks at a place of keys that are given.
fn ask_with<'a>(place: PlaceRef<'_>, keys: Keys<'a>, cite: Cite) -> AskRef<'a>
    ensures { ask_value result ≡ ask_with (place_value place.entry) (keys_value keys.entry) cite }
{
    let slot = place.slot();
    let index = place.index();
    match cite {
        Cite::Place => own_cell(place),
        Cite::Cell(named) => cell(place, named, index),
        Cite::Before(named) => cell(place, named, index.saturating_sub(1)),
        Cite::TripId => cell(place, trip_id(slot), index),
        Cite::StartTime => cell(place, start_time(slot), index),
        Cite::StartDate => cell(place, start_date(slot), index),
        Cite::Relationship => cell(place, relationship(slot), index),
        Cite::Delay => cell(place, delay(slot), index),
        Cite::Time => cell(place, time(slot), index),
        Cite::Holder => cell(place, holder(slot), index),
        Cite::HeadNow(named) => AskRef::HeadNow(named),
        Cite::HeadBefore(named) => AskRef::HeadBefore(named),
        Cite::Moment => AskRef::Moment,
        Cite::Occurrence => AskRef::Occurrence,
        Cite::EntitiesChanged => AskRef::EntitiesChanged,
        Cite::TripKnown(_) => AskRef::TripKnown(keys.text),
        Cite::RouteKnown(_) => AskRef::RouteKnown(keys.text),
        Cite::AgencyKnown(_) => AskRef::AgencyKnown(keys.text),
        Cite::StopKind(_) => AskRef::StopKind(keys.text),
        Cite::TripRoute(_) => AskRef::TripRoute(keys.text),
        Cite::TripDirection(_) => AskRef::TripDirection(keys.text),
        Cite::TripExact(_) => AskRef::TripExact(keys.text),
        Cite::OnGrid(_, _) => AskRef::OnGrid(keys.text, keys.other),
        Cite::VisitsTwice(_) => AskRef::VisitsTwice(keys.text),
        Cite::FirstArrival(_) => AskRef::FirstArrival(keys.text),
        Cite::StopAt(_, _) => AskRef::StopAt(keys.text, keys.sequence),
        Cite::EventAt(_, _) => event(slot, keys.text, keys.sequence),
        Cite::FirstVehicle(_) => AskRef::FirstVehicle(other(slot), keys.text),
        Cite::HasPair(_, _) => AskRef::HasPair(other(slot), keys.text, keys.other),
        Cite::AnyRow => AskRef::AnyRow(other(slot)),
        Cite::HasId(_) => has_id(slot, keys.text),
        Cite::FirstId(_) => AskRef::FirstId(feed(place), keys.text),
        Cite::FirstOccurrence(_) => AskRef::FirstOccurrence(feed(place), keys.text),
        Cite::Peak(_) => AskRef::Peak(feed(place), keys.text),
    }
}

/// What a row's entry asks at a place, after the cells that were cited before it. None where a text or a number that it
/// names isn't there.
#[tactic(auto, using(crate::proofs::Keyed::asked))]
pub fn ask_of<'a>(place: PlaceRef<'_>, cells: &[CellRef<'a>], cite: Cite) -> Option<AskRef<'a>>
    ensures { option_map ask_value result ≡ ask_at (place_value place.entry) (map cell_value cells.now) cite }
{
    match keys_of(cells, cite) {
        Some(keys) => Some(ask_with(place, keys, cite)),
        None => None,
    }
}

/// The fact of a row's entry.
pub(crate) fn fact_of<'a, A: Answers>(
    answers: &'a A,
    place: PlaceRef<'_>,
    cells: &[CellRef<'a>],
    cite: Cite,
) -> Option<FactRef<'a>>
    ensures { option_map fact_value result ≡ fact_at (A.answers answers.now) (place_value place.entry) (map cell_value cells.now) cite }
{
    let Some(ask) = ask_of(place, cells, cite) else {
        return None;
    };
    let Some(cell) = answers.answer(ask) else {
        return None;
    };
    if !is_in_range(cell) {
        return None;
    }
    Some(FactRef { ask, cell })
}

/// The path of the cell that an entry asks at an entity by itself, whatever was cited before it, where it is at the place's
/// index or the one before.
fn own_path(place: PlaceRef<'_>, cite: Cite) -> Option<Path>
    ensures { IfSome result (λ path. (vs : List CellValue) → ask_at (place_value place.entry) vs cite ≡ Some (Asks.Cell path)) }
{
    match place {
        PlaceRef::Head(_, _) => None,
        PlaceRef::Entity(_, path) => match cite {
            Cite::Place => Some(path),
            Cite::Cell(slot) => Some(path_of(slot, path.index)),
            Cite::Before(slot) => Some(path_of(slot, path.index.saturating_sub(1))),
            Cite::TripId => Some(path_of(trip_id(path.slot), path.index)),
            Cite::StartTime => Some(path_of(start_time(path.slot), path.index)),
            Cite::StartDate => Some(path_of(start_date(path.slot), path.index)),
            Cite::Relationship => Some(path_of(relationship(path.slot), path.index)),
            Cite::Delay => Some(path_of(delay(path.slot), path.index)),
            Cite::Time => Some(path_of(time(path.slot), path.index)),
            Cite::Holder => Some(path_of(holder(path.slot), path.index)),
            _ => None,
        },
    }
}

/// A cell that isn't outside of the bounds of all answers.
fn within(cell: Option<CellRef<'_>>) -> Option<CellRef<'_>>
    ensures { (ask : Ask) → option_map (λ f. f.value) (answered ask (option_map cell_value cell.entry)) ≡ option_map cell_value result }
{
    match cell {
        Some(cell) if is_in_range(cell) => Some(cell),
        _ => None,
    }
}

/// The value of a row's entry, without its ask.
pub(crate) fn cell_of<'a, A: Answers>(
    answers: &'a A,
    place: PlaceRef<'_>,
    cells: &[CellRef<'a>],
    cite: Cite,
) -> Option<CellRef<'a>>
    ensures { option_map cell_value result ≡ value_from (A.answers answers.now) (place_value place.entry) (map cell_value cells.now) cite }
{
    match own_path(place, cite) {
        Some(path) => within(answers.cell(path)),
        None => match fact_of(answers, place, cells, cite) {
            Some(fact) => Some(fact.cell),
            None => None,
        },
    }
}

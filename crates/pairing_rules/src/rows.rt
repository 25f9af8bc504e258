//! All rows by number.
ghost use Rattle.std.specs.Prelude.{◌≡◌, ◌&&◌, Some, None, option_copied};
ghost use Rattle.std.specs.List.{find, list_any};
ghost use Rattle.std.specs.List.Sorted.{IsStrictlySortedBy};
ghost use Rattle.std.specs.Ordering.{is_le};
ghost use Rattle.std.specs.BTreeMap.{keys};
ghost use Rattle.rule_table.specs.Kinds.{same_kind};
ghost use Rattle.rule_table.specs.declared.kind.Kind.TheVariants.{TripUpdate, Vehicle};
ghost use Rattle.pairing_rules.specs.Numbers.{is_number};
ghost use Rattle.pairing_rules.specs.Seats.{seat_cmp, is_pair};

use crate::held::Held;
use crate::seat::Seat;
use rule_table::Kind;
use std::collections::BTreeMap;
use std::rc::Rc;

/// The first seat at or after one.
fn first_seat_from<'a>(seats: &'a BTreeMap<Seat, Rc<Held>>, low: &Seat) -> Option<&'a Seat>
    ensures first { option_copied result ≡ find (λ s. is_le (seat_cmp low.now s)) (keys seats.now) }
    ensures ordered { IsStrictlySortedBy seat_cmp (keys seats.now) }
{
    match seats.range(low..).next() {
        Some((seat, _)) => Some(seat),
        None => None,
    }
}

fn is_of_kind(seat: &Seat, kind: Kind) -> bool
    ensures { result ≡ same_kind seat.now.kind kind }
{
    seat.kind == kind
}

fn is_of_pair(seat: &Seat, kind: Kind, trip: u32, vehicle: u32) -> bool
    ensures { result ≡ is_pair kind trip vehicle seat.now }
{
    seat.kind == kind && seat.trip == Some(trip) && seat.vehicle == Some(vehicle)
}

fn any_update(seats: &BTreeMap<Seat, Rc<Held>>) -> bool
    ensures { result ≡ list_any (λ s. same_kind s.kind TripUpdate) (keys seats.now) }
{
    match seats.first_key_value() {
        Some((seat, _)) => is_of_kind(seat, Kind::TripUpdate),
        None => false,
    }
}

fn any_vehicle(seats: &BTreeMap<Seat, Rc<Held>>) -> bool
    ensures { result ≡ list_any (λ s. same_kind s.kind Vehicle) (keys seats.now) }
{
    match seats.last_key_value() {
        Some((seat, _)) => is_of_kind(seat, Kind::Vehicle),
        None => false,
    }
}

/// Whether there is a row of a kind. Those of trip updates stand first and those of vehicle positions last, so that none is
/// searched.
pub(crate) fn any_of_kind(seats: &BTreeMap<Seat, Rc<Held>>, kind: Kind) -> bool
    ensures { result ≡ list_any (λ s. same_kind s.kind kind) (keys seats.now) }
{
    match kind {
        Kind::TripUpdate => any_update(seats),
        Kind::Vehicle => any_vehicle(seats),
    }
}

/// Whether there is a row of a kind with a trip and a vehicle.
pub(crate) fn any_of_pair(
    seats: &BTreeMap<Seat, Rc<Held>>,
    kind: Kind,
    trip: u32,
    vehicle: u32,
) -> bool
    ensures { result ≡ list_any (is_pair kind trip vehicle) (keys seats.now) }
{
    let low = Seat::low(kind, Some(trip), Some(vehicle));
    match first_seat_from(seats, &low) {
        Some(seat) => is_of_pair(seat, kind, trip, vehicle),
        None => false,
    }
}

//! What an ask is made of.
ghost use Rattle.std.specs.Prelude.{◌≡◌, []};
ghost use Rattle.rule_table.specs.Asked.{ask_value};
ghost use Rattle.rule_table.specs.Kinds.{kind_number};
ghost use Rattle.rule_table.specs.Parts.{parts_of, parts_value, same_parts};

use crate::ask::AskRef;
use crate::kind::Kind;
use crate::order::slot_number;

/// What is asked, by number, and the numbers and texts that it is asked of. What an ask hasn't is 0 or empty.
#[derive(Clone, Copy)]
pub(crate) struct Parts<'a> {
    pub what: u8,
    pub number: u32,
    pub index: u32,
    pub first: &'a str,
    pub second: &'a str,
}

fn kind_number(kind: Kind) -> u32
    ensures { result ≡ kind_number kind }
{
    match kind {
        Kind::TripUpdate => 0,
        Kind::Vehicle => 1,
    }
}

fn of_number(what: u8, number: u32, index: u32) -> Parts<'static>
    ensures { parts_value result ≡ record { what = what; number = number; index = index; first = []; second = [] } }
{
    Parts {
        what,
        number,
        index,
        first: "",
        second: "",
    }
}

fn of_text(what: u8, number: u32, text: &str) -> Parts<'_>
    ensures { parts_value result ≡ record { what = what; number = number; index = 0; first = text.now; second = [] } }
{
    Parts {
        what,
        number,
        index: 0,
        first: text,
        second: "",
    }
}

fn of_texts<'a>(what: u8, number: u32, first: &'a str, second: &'a str) -> Parts<'a>
    ensures { parts_value result ≡ record { what = what; number = number; index = 0; first = first.now; second = second.now } }
{
    Parts {
        what,
        number,
        index: 0,
        first,
        second,
    }
}

/// The parts of an ask.
pub(crate) fn parts_of(ask: AskRef<'_>) -> Parts<'_>
    ensures { parts_value result ≡ parts_of (ask_value ask.entry) }
{
    match ask {
        AskRef::Cell(path) => of_number(0, slot_number(path.slot) as u32, path.index),
        AskRef::HeadNow(slot) => of_number(1, slot_number(slot) as u32, 0),
        AskRef::HeadBefore(slot) => of_number(2, slot_number(slot) as u32, 0),
        AskRef::Moment => of_number(3, 0, 0),
        AskRef::Occurrence => of_number(4, 0, 0),
        AskRef::EntitiesChanged => of_number(5, 0, 0),
        AskRef::TripKnown(trip) => of_text(6, 0, trip),
        AskRef::RouteKnown(route) => of_text(7, 0, route),
        AskRef::AgencyKnown(agency) => of_text(8, 0, agency),
        AskRef::StopKind(stop) => of_text(9, 0, stop),
        AskRef::TripRoute(trip) => of_text(10, 0, trip),
        AskRef::TripDirection(trip) => of_text(11, 0, trip),
        AskRef::TripExact(trip) => of_text(12, 0, trip),
        AskRef::OnGrid(trip, time) => of_texts(13, 0, trip, time),
        AskRef::VisitsTwice(trip) => of_text(14, 0, trip),
        AskRef::FirstArrival(trip) => of_text(15, 0, trip),
        AskRef::StopAt(trip, sequence) => of_text(16, sequence, trip),
        AskRef::ArrivalAt(trip, sequence) => of_text(17, sequence, trip),
        AskRef::DepartureAt(trip, sequence) => of_text(18, sequence, trip),
        AskRef::FirstVehicle(kind, trip) => of_text(19, kind_number(kind), trip),
        AskRef::HasPair(kind, trip, vehicle) => of_texts(20, kind_number(kind), trip, vehicle),
        AskRef::AnyRow(kind) => of_number(21, kind_number(kind), 0),
        AskRef::HasTrip(kind, trip) => of_text(22, kind_number(kind), trip),
        AskRef::HasVehicle(kind, vehicle) => of_text(23, kind_number(kind), vehicle),
        AskRef::FirstId(feed, vehicle) => of_text(24, feed as u32, vehicle),
        AskRef::FirstOccurrence(feed, vehicle) => of_text(25, feed as u32, vehicle),
        AskRef::Peak(feed, vehicle) => of_text(26, feed as u32, vehicle),
    }
}

/// Whether parts are the same.
pub(crate) fn are_same(a: Parts<'_>, b: Parts<'_>) -> bool
    ensures { result ≡ same_parts (parts_value a.entry) (parts_value b.entry) }
{
    a.what == b.what
        && a.number == b.number
        && a.index == b.index
        && a.first == b.first
        && a.second == b.second
}

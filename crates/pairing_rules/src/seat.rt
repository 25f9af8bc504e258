//! Rows by the numbers of their ids.
ghost use Rattle.std.specs.Prelude.{◌≡◌, option_copied};
ghost use Rattle.std.specs.BTreeMap.{get_by_text};
ghost use Rattle.pairing_rules.specs.Numbers.{numbered, where_given, where_missing};
ghost use Rattle.pairing_rules.specs.Rows.{pair_row};
ghost use Rattle.pairing_rules.specs.Seats.{seat_in, seat_of, low_seat};

use crate::names::Names;
use crate::row::PairRow;
use feed_values::given_text;
use rule_table::Kind;

/// A row by number: no two rows have one seat. Those of a kind, and of a kind, a trip and a vehicle, stand together.
#[derive(Clone, Copy, PartialEq, Eq, PartialOrd, Ord)]
pub(crate) struct Seat {
    pub kind: Kind,
    pub trip: Option<u32>,
    pub vehicle: Option<u32>,
    pub id: u32,
    pub occurrence: u32,
    pub feed: u8,
}

/// The number of an id that may be given; None where it is given and has none.
fn number_in(names: &Names, id: Option<&str>) -> Option<Option<u32>>
    ensures { result ≡ numbered (get_by_text names.now.numbers) (option_copied id.entry) }
{
    match id {
        Some(id) => match names.number(id) {
            Some(number) => Some(Some(number)),
            None => None,
        },
        None => Some(None),
    }
}

impl Seat {
    /// The seat of a row whose ids have these numbers.
    pub fn new(row: &PairRow, id: u32, trip: Option<u32>, vehicle: Option<u32>) -> Seat
        ensures { result ≡ seat_of (pair_row row.now) id trip vehicle }
    {
        Seat {
            kind: row.kind,
            trip,
            vehicle,
            id,
            occurrence: row.occurrence,
            feed: row.feed,
        }
    }

    /// The seat of a row, where its ids have numbers.
    pub fn find(ids: &Names, trips: &Names, vehicles: &Names, row: &PairRow) -> Option<Seat>
        ensures { result ≡ seat_in (get_by_text ids.now.numbers) (get_by_text trips.now.numbers) (get_by_text vehicles.now.numbers) (pair_row row.now) }
    {
        let id = ids.number(row.id.as_str())?;
        let trip = number_in(trips, given_text(&row.trip))?;
        let vehicle = number_in(vehicles, given_text(&row.vehicle))?;
        Some(Seat::new(row, id, trip, vehicle))
    }

    /// What stands before the seats of a kind, a trip and a vehicle.
    pub fn low(kind: Kind, trip: Option<u32>, vehicle: Option<u32>) -> Seat
        ensures { result ≡ low_seat kind trip vehicle }
    {
        Seat {
            kind,
            trip,
            vehicle,
            id: 0,
            occurrence: 0,
            feed: 0,
        }
    }

    /// The trip, where a vehicle is given beside it.
    pub fn paired(&self) -> Option<u32>
        ensures { result ≡ where_given self.now.vehicle self.now.trip }
    {
        match self.vehicle {
            Some(_) => self.trip,
            None => None,
        }
    }

    /// The trip, where no vehicle is given beside it.
    pub fn unpaired(&self) -> Option<u32>
        ensures { result ≡ where_missing self.now.vehicle self.now.trip }
    {
        match self.vehicle {
            Some(_) => None,
            None => self.trip,
        }
    }
}

//! A view of the pairing rows of a kept snapshot.
ghost use Rattle.judging.specs.Judged.{seat_rows};
ghost use Rattle.snapshot_keys.specs.Places.{placed};
ghost use Rattle.sorted_rows.specs.Rows.{AnswersBy};

use crate::placing::EntityPlace;
use feed_stream::Kept;
use rule_table::{EntityKey, Kind, PairView};
use sorted_rows::SortedRows;

/// The pairing rows of the entities at these places of a kept snapshot, in the order of keys. No ask reads the snapshot again;
/// it says which rows they are.
#[derive(Drop)]
pub struct KeptRows<'a> {
    pub(crate) kept: &'a Kept,
    pub(crate) places: &'a [EntityPlace],
    pub(crate) rows: SortedRows<'a>,
    ghost answers: { ∥ AnswersBy rows (seat_rows (placed kept.now places.now)) ∥₁ },
}

impl PairView for KeptRows<'_> {
    ghost use Rattle.snapshot_keys.specs.Rowed.{rows_in};

    ghost rows = { rows_in };

    fn first_vehicle<'a>(&'a self, kind: Kind, trip: &str) -> Option<&'a str> {
        self.rows.first_vehicle(kind, trip)
    }

    fn has_pair(&self, kind: Kind, trip: &str, vehicle: &str) -> bool {
        self.rows.has_pair(kind, trip, vehicle)
    }

    fn any_row(&self, kind: Kind) -> bool {
        self.rows.any_row(kind)
    }

    fn has_trip(&self, kind: Kind, trip: &str) -> bool {
        self.rows.has_trip(kind, trip)
    }

    fn has_vehicle(&self, kind: Kind, vehicle: &str) -> bool {
        self.rows.has_vehicle(kind, vehicle)
    }

    fn first_key<'a>(&'a self, feed: u8, vehicle: &str) -> Option<&'a EntityKey> {
        self.rows.first_key(feed, vehicle)
    }
}

//! Rows as they are held.
ghost use Rattle.std.specs.Prelude.{◌≡◌, IfOk};
ghost use Rattle.pairing_rules.specs.Rows.{pair_row, held_row};

use crate::row::{PairRow, copied};
use feed_values::Text;
use rule_table::{EntityKey, Kind};
use std::alloc::{AllocError, Global};

/// The texts of a row. Its kind stands where it is held.
#[derive(PartialEq, Eq, PartialOrd, Ord, Drop)]
pub(crate) struct Held {
    pub key: EntityKey,
    pub trip: Option<Text>,
    pub vehicle: Option<Text>,
}

impl Held {
    pub fn new(row: PairRow) -> Held
        ensures { held_row row.kind result ≡ pair_row row }
    {
        Held {
            key: EntityKey {
                feed: row.feed,
                id: row.id,
                occurrence: row.occurrence,
            },
            trip: row.trip,
            vehicle: row.vehicle,
        }
    }

    /// The row, made again.
    pub fn row(&self, alloc: Global, kind: Kind) -> Result<PairRow, AllocError>
        ensures { IfOk result (λ row. pair_row row ≡ held_row kind self.now) }
    {
        let id = self.key.id.clone()?;
        let trip = copied(alloc, self.trip.as_ref())?;
        let vehicle = copied(alloc, self.vehicle.as_ref())?;
        Ok(PairRow {
            kind,
            feed: self.key.feed,
            id,
            occurrence: self.key.occurrence,
            trip,
            vehicle,
        })
    }
}

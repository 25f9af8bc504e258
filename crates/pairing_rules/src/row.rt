//! Pairing rows.
ghost use Rattle.std.specs.Prelude.{◌≡◌, IfOk, option_copied};
ghost use Rattle.rule_table.specs.Pairs.{row_with};
ghost use Rattle.rule_table.specs.Ids.{ids_value};
ghost use Rattle.pairing_rules.specs.Rows.{pair_row};

use feed_values::Text;
use rule_table::{EntityId, EntityKey, Ids, Kind};
use std::alloc::{AllocError, Global};

/// The ids that a trip update or a vehicle position of an entity gives. Rows are ordered by kind, then feed, id and occurrence.
#[derive(PartialEq, Eq, PartialOrd, Ord, Drop)]
pub struct PairRow {
    pub kind: Kind,
    /// From 0.
    pub feed: u8,
    /// The id of the entity.
    pub id: EntityId,
    /// How many entities with that id stand before it in its snapshot.
    pub occurrence: u32,
    pub trip: Option<Text>,
    pub vehicle: Option<Text>,
}

/// An id that may be given, made again.
pub(crate) fn copied(alloc: Global, id: Option<&Text>) -> Result<Option<Text>, AllocError>
    ensures { IfOk result (λ copy. copy ≡ option_copied id.entry) }
{
    match id {
        None => Ok(None),
        Some(id) => Ok(Some(id.clone(alloc)?)),
    }
}

impl PairRow {
    /// The row of a message of an entity that gives these ids.
    pub fn of(
        alloc: Global,
        kind: Kind,
        key: &EntityKey,
        ids: Ids<'_>,
    ) -> Result<PairRow, AllocError>
        ensures { IfOk result (λ row. pair_row row ≡ row_with kind key.now (ids_value ids.entry)) }
    {
        let id = key.id.clone()?;
        let trip = copied(alloc, ids.trip)?;
        let vehicle = copied(alloc, ids.vehicle)?;
        Ok(PairRow {
            kind,
            feed: key.feed,
            id,
            occurrence: key.occurrence,
            trip,
            vehicle,
        })
    }
}

//! The pairing rows of a kept snapshot.
ghost use Rattle.std.specs.Prelude.{◌≡◌, ◌++◌, List, IfOk, OnOk, option_map};
ghost use Rattle.feed_values.specs.Snapshot.{entity_of};
ghost use Rattle.rule_table.specs.Pairs.{PairRow, rows_of};
ghost use Rattle.judging.specs.Judged.{seat_rows};
ghost use Rattle.sorted_rows.specs.Rows.{Holds};
ghost use Rattle.snapshot_keys.specs.Ids.{given_ids};
ghost use Rattle.snapshot_keys.specs.Places.{AreWithin, placed};
ghost use Rattle.snapshot_keys.specs.Rowed.{given_rows, rows_in};

use crate::ids::{ReadIds, both_ids};
use crate::kept_rows::KeptRows;
use crate::placing::EntityPlace;
use feed_stream::Kept;
use rule_table::{EntityKey, Kind};
use sorted_rows::{Row, SortedRows};
use std::alloc::{AllocError, Global};

// Puts in the row with these ids, where there are any.
fn add_row<'a>(
    rows: &mut SortedRows<'a>,
    kind: Kind,
    key: &'a EntityKey,
    ids: Option<ReadIds<'a>>,
) -> Result<(), AllocError>
    ensures { OnOk result ((before : List PairRow) → Holds rows.old before → Holds rows.new (before ++ given_rows kind key.now (option_map given_ids ids.entry))) }
{
    let Some(ids) = ids else {
        return Ok(());
    };
    rows.push(Row {
        kind,
        key,
        trip: ids.trip,
        vehicle: ids.vehicle,
    })?;
    Ok(())
}

// Puts in the rows of an entity, by its bytes.
fn add_rows<'a>(
    rows: &mut SortedRows<'a>,
    key: &'a EntityKey,
    entity: &'a [u8],
) -> Result<(), AllocError>
    ensures { OnOk result ((before : List PairRow) → Holds rows.old before → Holds rows.new (before ++ rows_of key.now (entity_of entity.now))) }
{
    let ids = both_ids(entity)?;
    add_row(rows, Kind::TripUpdate, key, ids.update)?;
    add_row(rows, Kind::Vehicle, key, ids.vehicle)?;
    Ok(())
}

// Those of all entities at these places, in the order of keys.
fn all_rows<'a>(
    alloc: Global,
    kept: &'a Kept,
    places: &'a [EntityPlace],
) -> Result<SortedRows<'a>, AllocError>
    requires { AreWithin kept.now places.now }
    ensures { IfOk result (λ rows. Holds rows (seat_rows (placed kept.now places.now))) }
{
    let mut rows = SortedRows::new(alloc);
    for place in places {
        add_rows(&mut rows, &place.key, kept.entity(place.number))?;
    }
    Ok(rows)
}

/// The pairing rows of the entities at these places of a kept snapshot, in the order of keys.
pub fn rows_of<'a>(
    alloc: Global,
    kept: &'a Kept,
    places: &'a [EntityPlace],
) -> Result<KeptRows<'a>, AllocError>
    requires { AreWithin kept.now places.now }
    ensures { IfOk result (λ rows. rows_in rows ≡ seat_rows (placed kept.now places.now)) }
{
    let mut rows = all_rows(alloc, kept, places)?;
    rows.sort()?;
    Ok(KeptRows { kept, places, rows })
}

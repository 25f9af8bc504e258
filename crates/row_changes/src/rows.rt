//! The pairing rows of an entity exchanged.
ghost use Rattle.std.specs.Prelude.{◌≡◌, ◌&&◌, ◌||◌, not, IfOk, OnOk, option_map, option_copied};
ghost use Rattle.feed_values.specs.Views.{entity_value};
ghost use Rattle.rule_table.specs.Ids.{ids_value};
ghost use Rattle.rule_table.specs.Pairs as pairs;
ghost use Rattle.rule_table.specs.Pairs.{has_row};
ghost use Rattle.row_changes.specs.Given.{id_rows, rows_under};
ghost use Rattle.row_changes.specs.Ids.{are_same};
ghost use Rattle.row_changes.specs.Updated.{exchanged};

use crate::ids::{given_update, given_vehicle};
use feed_values::Entity;
use pairing_rules::{PairIndex, PairRow};
use rule_table::{EntityKey, Ids, Kind, are_same_ids};
use std::alloc::{AllocError, Global};

/// Whether neither message is there, or both give the same ids.
fn are_same(old: Option<Ids<'_>>, new: Option<Ids<'_>>) -> bool
    ensures { result ≡ are_same (option_map ids_value old.entry) (option_map ids_value new.entry) }
{
    match old {
        Some(ids) => are_same_ids(ids, new),
        None => new.is_none(),
    }
}

/// Takes out the row of a message, where it is there.
fn take_row(
    alloc: Global,
    index: &mut PairIndex,
    kind: Kind,
    key: &EntityKey,
    ids: Option<Ids<'_>>,
) -> Result<(), AllocError>
    ensures { OnOk result ((r : pairs.PairRow) → has_row index.new r ≡ (not (has_row (id_rows kind key.now (option_map ids_value ids.entry)) r) && has_row index.old r)) }
{
    match ids {
        Some(ids) => {
            let row = PairRow::of(alloc, kind, key, ids)?;
            index.stands_in_order();
            index.take_out(&row);
            Ok(())
        }
        None => Ok(()),
    }
}

/// Puts in the row of a message, where it is there.
fn add_row(
    alloc: Global,
    index: PairIndex,
    kind: Kind,
    key: &EntityKey,
    ids: Option<Ids<'_>>,
) -> Result<PairIndex, AllocError>
    ensures { IfOk result (λ next. (r : pairs.PairRow) → has_row next r ≡ (has_row (id_rows kind key.now (option_map ids_value ids.entry)) r || has_row index r)) }
{
    match ids {
        Some(ids) => {
            let row = PairRow::of(alloc, kind, key, ids)?;
            let next = index.add(row)?;
            Ok(next)
        }
        None => Ok(index),
    }
}

/// Puts the row of a message in the place of the one that it had, where both aren't the same.
fn update_row(
    alloc: Global,
    index: PairIndex,
    kind: Kind,
    key: &EntityKey,
    old: Option<Ids<'_>>,
    new: Option<Ids<'_>>,
) -> Result<PairIndex, AllocError>
    ensures { IfOk result (λ next. (r : pairs.PairRow) → has_row next r
        ≡ exchanged (has_row (id_rows kind key.now (option_map ids_value old.entry)) r) (has_row (id_rows kind key.now (option_map ids_value new.entry)) r) (has_row index r)) }
{
    if are_same(old, new) {
        return Ok(index);
    }
    let mut index = index;
    take_row(alloc, &mut index, kind, key, old)?;
    let next = add_row(alloc, index, kind, key, new)?;
    Ok(next)
}

/// The rows of an entity take the place of those that it had.
pub(crate) fn update_rows(
    alloc: Global,
    index: PairIndex,
    key: &EntityKey,
    old: Option<&Entity>,
    new: Option<&Entity>,
) -> Result<PairIndex, AllocError>
    ensures { IfOk result (λ next. (r : pairs.PairRow) → has_row next r
        ≡ exchanged (has_row (rows_under key.now (option_map entity_value (option_copied old.entry))) r) (has_row (rows_under key.now (option_map entity_value (option_copied new.entry))) r) (has_row index r)) }
{
    let (was, is) = (given_update(old), given_update(new));
    let updates = update_row(alloc, index, Kind::TripUpdate, key, was, is)?;
    let (was, is) = (given_vehicle(old), given_vehicle(new));
    let next = update_row(alloc, updates, Kind::Vehicle, key, was, is)?;
    Ok(next)
}

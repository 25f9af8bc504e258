//! The keys of rows by number.
ghost use Rattle.std.specs.Prelude.{◌≡◌, ◌<◌, ◌+◌, ◌^◌, ◌&&◌, ◌||◌, OnOk, IfSome};
ghost use Rattle.std.specs.List.{list_any};
ghost use Rattle.std.specs.BTreeSet.{contains};
ghost use Rattle.rule_table.specs.Order.{key_cmp, same_key};
ghost use Rattle.rule_table.specs.Pairs.{is_of};
ghost use Rattle.rule_table.specs.declared.key.EntityKey.{EntityKey as Key};
ghost use Rattle.pairing_rules.specs.Rows.{held_row};
ghost use Rattle.pairing_rules.specs.Seats.{row_at};
ghost use Rattle.pairing_rules.specs.Slots.{seen, has_key, has_key_at, has_given_key};

use crate::entry::Entry;
use crate::held::Held;
use crate::seat::Seat;
use rule_table::{EntityKey, Kind};
use std::alloc::AllocError;
use std::collections::{BTreeMap, BTreeSet};
use std::rc::Rc;

/// Puts the key of an entry's row into a set.
fn put_key(keys: &mut BTreeSet<EntityKey>, entry: &Entry) -> Result<(), AllocError>
    ensures { OnOk result ((key : Key) → contains key_cmp keys.new key ≡ (contains key_cmp keys.old key || has_key key (seen entry.now))) }
{
    match &entry.row {
        Some(row) => {
            keys.insert(row.key.clone()?)?;
            Ok(())
        }
        None => Ok(()),
    }
}

/// Puts the keys of the rows under a number, of both kinds, into a set.
fn put_number(
    keys: &mut BTreeSet<EntityKey>,
    entries: &BTreeSet<Entry>,
    number: u32,
) -> Result<(), AllocError>
    requires { number + 1 < 2 ^ 32 }
    ensures { OnOk result ((key : Key) → contains key_cmp keys.new key ≡ (contains key_cmp keys.old key || has_key_at entries.now number key)) }
{
    let low = Entry::low(number, Kind::TripUpdate, 0);
    let high = Entry::low(number + 1, Kind::TripUpdate, 0);
    for entry in entries.range(low..high) {
        put_key(keys, entry)?;
    }
    Ok(())
}

/// The same, under a number that may be given.
pub(crate) fn put_given_keys(
    keys: &mut BTreeSet<EntityKey>,
    entries: &BTreeSet<Entry>,
    number: Option<u32>,
) -> Result<(), AllocError>
    requires { IfSome number (λ n. n + 1 < 2 ^ 32) }
    ensures { OnOk result ((key : Key) → contains key_cmp keys.new key ≡ (contains key_cmp keys.old key || has_given_key entries.now number key)) }
{
    match number {
        Some(number) => put_number(keys, entries, number),
        None => Ok(()),
    }
}

/// Puts the key of a row into a set, where the row is of a kind.
fn put_key_of(
    keys: &mut BTreeSet<EntityKey>,
    seat: &Seat,
    row: &Held,
    kind: Kind,
) -> Result<(), AllocError>
    ensures { OnOk result ((key : Key) → contains key_cmp keys.new key ≡ (contains key_cmp keys.old key || (is_of kind (held_row seat.now.kind row.now) && same_key key row.now.key))) }
{
    if seat.kind == kind {
        keys.insert(row.key.clone()?)?;
    }
    Ok(())
}

/// Puts the keys of the rows of a kind into a set.
pub(crate) fn put_kind_keys(
    keys: &mut BTreeSet<EntityKey>,
    seats: &BTreeMap<Seat, Rc<Held>>,
    kind: Kind,
) -> Result<(), AllocError>
    ensures { OnOk result ((key : Key) → contains key_cmp keys.new key ≡ (contains key_cmp keys.old key || list_any (λ e. is_of kind (row_at e) && same_key key (row_at e).key) seats.now.entries)) }
{
    for (seat, row) in seats {
        put_key_of(keys, seat, row, kind)?;
    }
    Ok(())
}

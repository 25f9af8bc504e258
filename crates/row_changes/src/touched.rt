//! The keys of the entities that are judged again.
ghost use Rattle.std.specs.Prelude.{◌≡◌, ◌&&◌, ◌||◌, ℕ, List, OnOk, IfOk};
ghost use Rattle.std.specs.BTreeSet.{contains};
ghost use Rattle.std.specs.List.{list_any};
ghost use Rattle.std.specs.List.Sorted.{IsStrictlySortedBy};
ghost use Rattle.rule_table.specs.Order.{key_cmp, same_key};
ghost use Rattle.rule_table.specs.declared.key.EntityKey.{EntityKey as Key};
ghost use Rattle.rule_table.specs.Pairs.{is_id, is_of, shares};
ghost use Rattle.rule_table.specs.Pairs.{PairRow as Asked};
ghost use Rattle.rule_history.specs.Changed.{differ};
ghost use Rattle.pairing_rules.specs.Rows.{pair_row};
ghost use Rattle.row_changes.specs.Touched.{is_over, is_over_given, is_paired_key};

use crate::ids::ChangedIds;
use crate::kinds::Kinds;
use feed_values::{Items, Text};
use history_rules::StampIndex;
use pairing_rules::{PairIndex, PairRow};
use rule_table::{EntityId, EntityKey, Kind, keys_in_order};
use std::alloc::{AllocError, Global};
use std::collections::BTreeSet;

/// Puts keys into a set.
fn put_keys(keys: &mut BTreeSet<EntityKey>, more: Items<EntityKey>) -> Result<(), AllocError>
    ensures { OnOk result ((key : Key) → contains key_cmp keys.new key ≡ (contains key_cmp keys.old key || list_any (same_key key) more)) }
{
    for key in more.into_vec() {
        keys.insert(key)?;
    }
    Ok(())
}

/// A row that gives one trip id and nothing else, by which an index is asked.
fn trip_alone(alloc: Global, trip: &Text) -> Result<PairRow, AllocError>
    ensures { IfOk result (λ row. (q : Asked) → shares (pair_row row) q ≡ is_id trip.now q.trip) }
{
    let trip = trip.clone(alloc)?;
    Ok(PairRow {
        kind: Kind::TripUpdate,
        feed: 0,
        id: EntityId::of(alloc, "")?,
        occurrence: 0,
        trip: Some(trip),
        vehicle: None,
    })
}

/// The same with a vehicle id.
fn vehicle_alone(alloc: Global, vehicle: &Text) -> Result<PairRow, AllocError>
    ensures { IfOk result (λ row. (q : Asked) → shares (pair_row row) q ≡ is_id vehicle.now q.vehicle) }
{
    let vehicle = vehicle.clone(alloc)?;
    Ok(PairRow {
        kind: Kind::Vehicle,
        feed: 0,
        id: EntityId::of(alloc, "")?,
        occurrence: 0,
        trip: None,
        vehicle: Some(vehicle),
    })
}

/// Puts the keys of the rows of a trip into a set.
fn put_trip(
    alloc: Global,
    keys: &mut BTreeSet<EntityKey>,
    pairs: &PairIndex,
    trip: &Text,
) -> Result<(), AllocError>
    ensures { OnOk result ((key : Key) → contains key_cmp keys.new key ≡ (contains key_cmp keys.old key || list_any (λ r. is_id trip.now r.trip && same_key key r.key) pairs.now)) }
{
    let row = trip_alone(alloc, trip)?;
    let found = pairs.naming(alloc, &row)?;
    put_keys(keys, found)?;
    Ok(())
}

/// Puts the keys of the rows of a vehicle into a set.
fn put_vehicle(
    alloc: Global,
    keys: &mut BTreeSet<EntityKey>,
    pairs: &PairIndex,
    vehicle: &Text,
) -> Result<(), AllocError>
    ensures { OnOk result ((key : Key) → contains key_cmp keys.new key ≡ (contains key_cmp keys.old key || list_any (λ r. is_id vehicle.now r.vehicle && same_key key r.key) pairs.now)) }
{
    let row = vehicle_alone(alloc, vehicle)?;
    let found = pairs.naming(alloc, &row)?;
    put_keys(keys, found)?;
    Ok(())
}

/// Puts the keys of the rows of some trips into a set. The index is asked once for each trip, however many rows changed.
fn put_trips(
    alloc: Global,
    keys: &mut BTreeSet<EntityKey>,
    pairs: &PairIndex,
    trips: &BTreeSet<Text>,
) -> Result<(), AllocError>
    ensures { OnOk result ((key : Key) → contains key_cmp keys.new key
        ≡ (contains key_cmp keys.old key || list_any (λ (q : List ℕ). list_any (λ r. is_id q r.trip && same_key key r.key) pairs.now) trips.now.keys)) }
{
    for trip in trips {
        put_trip(alloc, keys, pairs, trip)?;
    }
    Ok(())
}

/// Puts the keys of the rows of some vehicles into a set.
fn put_vehicles(
    alloc: Global,
    keys: &mut BTreeSet<EntityKey>,
    pairs: &PairIndex,
    vehicles: &BTreeSet<Text>,
) -> Result<(), AllocError>
    ensures { OnOk result ((key : Key) → contains key_cmp keys.new key
        ≡ (contains key_cmp keys.old key || list_any (λ (q : List ℕ). list_any (λ r. is_id q r.vehicle && same_key key r.key) pairs.now) vehicles.now.keys)) }
{
    for vehicle in vehicles {
        put_vehicle(alloc, keys, pairs, vehicle)?;
    }
    Ok(())
}

/// Puts the keys of all rows of a kind into a set, where the other kind turned.
fn put_kind(
    alloc: Global,
    keys: &mut BTreeSet<EntityKey>,
    pairs: &PairIndex,
    kind: Kind,
    turned: bool,
) -> Result<(), AllocError>
    ensures { OnOk result ((key : Key) → contains key_cmp keys.new key ≡ (contains key_cmp keys.old key || (turned && list_any (λ r. is_of kind r && same_key key r.key) pairs.now))) }
{
    if !turned {
        return Ok(());
    }
    let found = pairs.keys_of(alloc, kind)?;
    put_keys(keys, found)?;
    Ok(())
}

fn differ(a: bool, b: bool) -> bool
    ensures { result ≡ differ a b }
{
    if a { !b } else { b }
}

/// The keys of the rows that give an id which changed, and of those whose other kind got its first row or lost its last one, each
/// once, in order. `before` are the kinds of the rows before the snapshot, `pairs` the rows after it.
pub fn paired_keys(
    alloc: Global,
    pairs: &PairIndex,
    ids: &ChangedIds,
    before: Kinds,
) -> Result<Items<EntityKey>, AllocError>
    ensures ordered { IfOk result (λ keys. IsStrictlySortedBy key_cmp keys) }
    ensures paired { IfOk result (λ keys. (key : Key) → list_any (same_key key) keys ≡ is_paired_key ids.now before pairs.now key) }
{
    let mut keys = BTreeSet::new(alloc);
    put_trips(alloc, &mut keys, pairs, &ids.trips)?;
    put_vehicles(alloc, &mut keys, pairs, &ids.vehicles)?;
    let after = Kinds::of(pairs);
    let updates = differ(before.updates, after.updates);
    let vehicles = differ(before.vehicles, after.vehicles);
    put_kind(alloc, &mut keys, pairs, Kind::TripUpdate, vehicles)?;
    put_kind(alloc, &mut keys, pairs, Kind::Vehicle, updates)?;
    let found = keys_in_order(alloc, keys)?;
    Ok(found)
}

/// The keys of a feed with a timestamp above a bound, each once, in order; none where there is no bound, as before the first snapshot of a
/// feed.
pub fn keys_above(
    alloc: Global,
    stamps: &StampIndex,
    feed: u8,
    bound: Option<u128>,
) -> Result<Items<EntityKey>, AllocError>
    ensures ordered { IfOk result (λ keys. IsStrictlySortedBy key_cmp keys) }
    ensures above { IfOk result (λ keys. (key : Key) → list_any (same_key key) keys ≡ is_over_given feed bound stamps.now key) }
{
    match bound {
        Some(bound) => {
            let keys = stamps.above(alloc, feed, bound)?;
            Ok(keys)
        }
        None => {
            let keys = keys_in_order(alloc, BTreeSet::new(alloc))?;
            Ok(keys)
        }
    }
}

/// The keys of a feed whose bounds moved: those that were above the bound before the snapshot, and those that are above the one
/// after it, each once, in order.
pub fn bounded_keys(
    alloc: Global,
    stamps: &StampIndex,
    feed: u8,
    bound: u128,
    before: Items<EntityKey>,
) -> Result<Items<EntityKey>, AllocError>
    ensures ordered { IfOk result (λ keys. IsStrictlySortedBy key_cmp keys) }
    ensures bounded { IfOk result (λ keys. (key : Key) → list_any (same_key key) keys ≡ (list_any (same_key key) before || is_over feed bound stamps.now key)) }
{
    let mut keys = BTreeSet::new(alloc);
    put_keys(&mut keys, before)?;
    let now = stamps.above(alloc, feed, bound)?;
    put_keys(&mut keys, now)?;
    let found = keys_in_order(alloc, keys)?;
    Ok(found)
}

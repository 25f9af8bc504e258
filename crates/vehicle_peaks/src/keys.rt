//! The keys of the entities whose vehicle has a new peak.
ghost use Rattle.std.specs.Prelude.{◌≡◌, ◌≤◌, ◌&&◌, ◌||◌, IfOk, OnOk, drop, length, not};
ghost use Rattle.std.specs.BTreeSet.{contains};
ghost use Rattle.std.specs.List.{list_any};
ghost use Rattle.std.specs.declared.cmp.Ordering.TheVariants.{Less};
ghost use Rattle.feed_values.specs.Views.{entity_value};
ghost use Rattle.rule_table.specs.Order.{key_cmp, same_key};
ghost use Rattle.rule_table.specs.Rises.{Rises as AreRising};
ghost use Rattle.rule_table.specs.declared.key.EntityKey.{EntityKey as Key};
ghost use Rattle.rule_table.specs.Peaks.{vehicle_id_of};
ghost use Rattle.history_rules.specs.HeldPeaks.{ids_seen};
ghost use Rattle.vehicle_peaks.specs.Rises.{gives_rise, has_rise};
ghost use Rattle.vehicle_peaks.specs.Held.{payload_in};

use crate::stamped::vehicle_id;
use entity_index::EntityIndex;
use feed_values::Entity;
use rule_table::EntityKey;
use std::alloc::{AllocError, Global};
use std::cmp::Ordering;
use std::collections::{BTreeMap, BTreeSet};

/// Whether the vehicle of an entity has a new peak.
fn has_rise(stamps: &BTreeMap<String, u64>, entity: &Entity) -> bool
    ensures { result ≡ has_rise (ids_seen stamps.now) (vehicle_id_of (entity_value entity.now)) }
{
    match vehicle_id(entity) {
        None => false,
        Some(vehicle) => stamps.contains_key(vehicle.as_str()),
    }
}

/// Puts a key into a set, if it is to go there.
fn put_if(keys: &mut BTreeSet<EntityKey>, key: &EntityKey, there: bool) -> Result<(), AllocError>
    ensures { OnOk result ((k : Key) → contains key_cmp keys.new k ≡ (contains key_cmp keys.old k || (same_key k key.now && there))) }
{
    if there {
        keys.insert(key.clone()?)?;
    }
    Ok(())
}

/// Whether a key is one of some keys, and the place from which on a greater one is looked for.
#[derive(Clone, Copy)]
struct Met {
    is_there: bool,
    at: usize,
}

/// Goes on in keys in order, from a place, to what isn't below a key.
fn meet(keys: &[EntityKey], from: usize, key: &EntityKey) -> Met
    requires within { from ≤ length keys.now }
    requires ordered { AreRising key_cmp keys.now }
    ensures within { result.at ≤ length keys.now }
    ensures met { result.is_there ≡ list_any (same_key key.now) (drop from keys.now) }
    ensures greater { (k : Key) → key_cmp key.now k ≡ Less → list_any (same_key k) (drop result.at keys.now) ≡ list_any (same_key k) (drop from keys.now) }
{
    for i in from..keys.len() {
        match keys[i].cmp(key) {
            Ordering::Less => {}
            Ordering::Equal => {
                return Met {
                    is_there: true,
                    at: i,
                };
            }
            Ordering::Greater => {
                return Met {
                    is_there: false,
                    at: i,
                };
            }
        }
    }
    Met {
        is_there: false,
        at: keys.len(),
    }
}

/// Whether an entity isn't fresh, and its vehicle has a new peak.
fn is_raised(stamps: &BTreeMap<String, u64>, entity: &Entity, is_fresh: bool) -> bool
    ensures { result ≡ (not is_fresh && has_rise (ids_seen stamps.now) (vehicle_id_of (entity_value entity.now))) }
{
    if is_fresh {
        return false;
    }
    has_rise(stamps, entity)
}

/// The keys of the feed's entities whose vehicle has a new peak, but for some in order that are fresh.
pub(crate) fn raised_keys(
    alloc: Global,
    stamps: &BTreeMap<String, u64>,
    index: &EntityIndex,
    feed: u8,
    fresh: &[EntityKey],
) -> Result<BTreeSet<EntityKey>, AllocError>
    requires { AreRising key_cmp fresh.now }
    ensures { IfOk result (λ keys. (key : Key) → contains key_cmp keys key ≡ (not (list_any (same_key key) fresh.now) && gives_rise (ids_seen stamps.now) (payload_in index.now feed key))) }
{
    let mut keys = BTreeSet::new(alloc);
    if stamps.is_empty() {
        return Ok(keys);
    }
    let mut at = 0;
    for (key, entity) in index.entities(feed) {
        let met = meet(fresh, at, key);
        at = met.at;
        let there = is_raised(stamps, entity, met.is_there);
        put_if(&mut keys, key, there)?;
    }
    Ok(keys)
}

/// Takes keys out of a set.
pub(crate) fn take_out(keys: &mut BTreeSet<EntityKey>, gone: &[EntityKey])
    ensures { (key : Key) → contains key_cmp keys.new key ≡ (not (list_any (same_key key) gone.now) && contains key_cmp keys.old key) }
{
    for key in gone {
        keys.remove(key);
    }
}

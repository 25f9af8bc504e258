//! The ids of pairing rows that came or went.
ghost use Rattle.std.specs.Prelude.{◌≡◌, ◌||◌, ℕ, List, false, option_map, option_and_then, option_copied, OnOk};
ghost use Rattle.feed_values.specs.Views.{entity_value};
ghost use Rattle.rule_table.specs.Pairs.{is_id};
ghost use Rattle.rule_table.specs.Ids.{ids_value, update_ids, vehicle_ids};
ghost use Rattle.rule_table.specs.declared.key.EntityKey.{EntityKey as Key};
ghost use Rattle.row_changes.specs.Ids.{has_text, new_trip, new_vehicle, given_trip, given_vehicle};
ghost use Rattle.row_changes.specs.Updated.{AreNoted};

use feed_values::{Entity, Text};
use rule_table::{Ids, are_same_ids, update_ids, vehicle_ids};
use std::alloc::{AllocError, Global};
use std::collections::BTreeSet;

/// The trip ids and the vehicle ids of pairing rows that came or went, each once.
#[derive(Drop)]
pub struct ChangedIds {
    pub(crate) trips: BTreeSet<Text>,
    pub(crate) vehicles: BTreeSet<Text>,
}

/// Puts an id that is given into a set.
fn put_id(alloc: Global, ids: &mut BTreeSet<Text>, id: Option<&Text>) -> Result<(), AllocError>
    ensures { OnOk result ((q : List ℕ) → has_text ids.new q ≡ (has_text ids.old q || is_id q (option_copied id.entry))) }
{
    match id {
        None => Ok(()),
        Some(id) => {
            ids.insert(id.clone(alloc)?)?;
            Ok(())
        }
    }
}

/// The ids of the trip update of an entity, where both are there.
pub(crate) fn given_update(entity: Option<&Entity>) -> Option<Ids<'_>>
    ensures { option_map ids_value result ≡ option_and_then update_ids (option_map entity_value (option_copied entity.entry)) }
{
    match entity {
        None => None,
        Some(entity) => update_ids(entity),
    }
}

/// The ids of its vehicle position.
pub(crate) fn given_vehicle(entity: Option<&Entity>) -> Option<Ids<'_>>
    ensures { option_map ids_value result ≡ option_and_then vehicle_ids (option_map entity_value (option_copied entity.entry)) }
{
    match entity {
        None => None,
        Some(entity) => vehicle_ids(entity),
    }
}

impl ChangedIds {
    /// No ids. It takes no memory.
    pub fn new(alloc: Global) -> ChangedIds
        ensures trips { (q : List ℕ) → has_text result.trips q ≡ false }
        ensures vehicles { (q : List ℕ) → has_text result.vehicles q ≡ false }
    {
        ChangedIds {
            trips: BTreeSet::new(alloc),
            vehicles: BTreeSet::new(alloc),
        }
    }

    /// Puts in the ids of a message, where it is there and another doesn't give the same ones.
    fn put(
        &mut self,
        alloc: Global,
        ids: Option<Ids<'_>>,
        other: Option<Ids<'_>>,
    ) -> Result<(), AllocError>
        ensures trips { OnOk result ((q : List ℕ) → has_text self.new.trips q ≡ (has_text self.old.trips q || new_trip q (option_map ids_value ids.entry) (option_map ids_value other.entry))) }
        ensures vehicles { OnOk result ((q : List ℕ) → has_text self.new.vehicles q ≡ (has_text self.old.vehicles q || new_vehicle q (option_map ids_value ids.entry) (option_map ids_value other.entry))) }
    {
        match ids {
            None => Ok(()),
            Some(ids) => {
                if are_same_ids(ids, other) {
                    return Ok(());
                }
                put_id(alloc, &mut self.trips, ids.trip)?;
                put_id(alloc, &mut self.vehicles, ids.vehicle)?;
                Ok(())
            }
        }
    }

    /// Puts in the ids that an entity gives and another doesn't, each where it is there.
    fn put_new(
        &mut self,
        alloc: Global,
        entity: Option<&Entity>,
        other: Option<&Entity>,
    ) -> Result<(), AllocError>
        ensures trips { OnOk result ((q : List ℕ) → has_text self.new.trips q ≡ (has_text self.old.trips q || given_trip q (option_map entity_value (option_copied entity.entry)) (option_map entity_value (option_copied other.entry)))) }
        ensures vehicles { OnOk result ((q : List ℕ) → has_text self.new.vehicles q ≡ (has_text self.old.vehicles q || given_vehicle q (option_map entity_value (option_copied entity.entry)) (option_map entity_value (option_copied other.entry)))) }
    {
        let (update, other_update) = (given_update(entity), given_update(other));
        self.put(alloc, update, other_update)?;
        let (vehicle, other_vehicle) = (given_vehicle(entity), given_vehicle(other));
        self.put(alloc, vehicle, other_vehicle)?;
        Ok(())
    }

    /// Puts in the ids of the rows that came or went where an entity was one and is another.
    pub(crate) fn note(
        &mut self,
        alloc: Global,
        old: Option<&Entity>,
        new: Option<&Entity>,
    ) -> Result<(), AllocError>
        ensures { OnOk result ((key : Key) → AreNoted key (option_map entity_value (option_copied old.entry)) (option_map entity_value (option_copied new.entry)) self.old self.new) }
    {
        self.put_new(alloc, new, old)?;
        self.put_new(alloc, old, new)?;
        Ok(())
    }
}

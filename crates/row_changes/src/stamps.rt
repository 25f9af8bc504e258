//! The timestamps of an entity exchanged.
ghost use Rattle.std.specs.Prelude.{◌≡◌, ◌&&◌, ◌||◌, ℕ, not, IfOk, pos, option_map, option_copied};
ghost use Rattle.feed_values.specs.Views.{entity_value};
ghost use Rattle.history_rules.specs.Stamps.{Stamp, holds};
ghost use Rattle.row_changes.specs.Given.{gives_time, is_given_under, update_time, vehicle_time};
ghost use Rattle.row_changes.specs.Times.{are_given, is_stamp};
ghost use Rattle.row_changes.specs.Updated.{exchanged};

use feed_values::Entity;
use history_rules::StampIndex;
use rule_table::EntityKey;
use std::alloc::{AllocError, Global};

/// The timestamps, in POSIX seconds, of an entity's trip update and of its vehicle position.
#[derive(Clone, Copy)]
pub(crate) struct Times {
    update: Option<u64>,
    vehicle: Option<u64>,
}

fn update_time(entity: &Entity) -> Option<u64>
    ensures { option_map pos result ≡ update_time (entity_value entity.now) }
{
    match &entity.trip_update {
        None => None,
        Some(update) => update.timestamp,
    }
}

fn vehicle_time(entity: &Entity) -> Option<u64>
    ensures { option_map pos result ≡ vehicle_time (entity_value entity.now) }
{
    match &entity.vehicle {
        None => None,
        Some(vehicle) => vehicle.timestamp,
    }
}

impl Times {
    fn of(entity: Option<&Entity>) -> Times
        ensures { (n : ℕ) → are_given result n ≡ gives_time (option_map entity_value (option_copied entity.entry)) n }
    {
        match entity {
            None => Times {
                update: None,
                vehicle: None,
            },
            Some(entity) => Times {
                update: update_time(entity),
                vehicle: vehicle_time(entity),
            },
        }
    }

    fn has(self, time: u64) -> bool
        ensures { result ≡ are_given self time }
    {
        self.update == Some(time) || self.vehicle == Some(time)
    }
}

/// Takes out a timestamp, unless it stays.
fn take_time(stamps: &mut StampIndex, key: &EntityKey, time: Option<u64>, kept: Times)
    ensures { (s : Stamp) → holds stamps.new s ≡ (not (is_stamp key.now time s && not (are_given kept s.at.stamp)) && holds stamps.old s) }
{
    match time {
        None => {}
        Some(time) => {
            if !kept.has(time) {
                stamps.take_out(key.feed, time, key);
            }
        }
    }
}

/// Puts in a timestamp, unless it was there.
fn add_time(
    stamps: StampIndex,
    key: &EntityKey,
    time: Option<u64>,
    had: Times,
) -> Result<StampIndex, AllocError>
    ensures { IfOk result (λ next. (s : Stamp) → holds next s ≡ ((is_stamp key.now time s && not (are_given had s.at.stamp)) || holds stamps s)) }
{
    match time {
        None => Ok(stamps),
        Some(time) => {
            if had.has(time) {
                return Ok(stamps);
            }
            let next = stamps.add(key.feed, time, key.clone()?)?;
            Ok(next)
        }
    }
}

/// The timestamps of an entity take the place of those that it had.
pub(crate) fn update_stamps(
    stamps: StampIndex,
    key: &EntityKey,
    old: Option<&Entity>,
    new: Option<&Entity>,
) -> Result<StampIndex, AllocError>
    ensures { IfOk result (λ next. (s : Stamp) → holds next s
        ≡ exchanged (is_given_under key.now (option_map entity_value (option_copied old.entry)) s) (is_given_under key.now (option_map entity_value (option_copied new.entry)) s) (holds stamps s)) }
{
    let was = Times::of(old);
    let is = Times::of(new);
    let mut stamps = stamps;
    take_time(&mut stamps, key, was.update, is);
    take_time(&mut stamps, key, was.vehicle, is);
    let some = add_time(stamps, key, is.update, was)?;
    let next = add_time(some, key, is.vehicle, was)?;
    Ok(next)
}

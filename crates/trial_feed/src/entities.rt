//! The entities of a snapshot.
ghost use Rattle.std.specs.Prelude.{◌≡◌, ◌<◌, ◌^◌, ◌∷◌, [], IfOk};
ghost use Rattle.trial_feed.specs.Moving.{AllBelow};
ghost use Rattle.trial_feed.specs.Messages.{numbered, trip_of, vehicle_of, stop_update, update_entity, position_entity, entity_of, entities_of};

use crate::entity_state::EntityState;
use crate::letter::Letter;
use feed_values::{
    Apart, Entity, Items, StopTimeEvent, StopTimeUpdate, Text, TripDescriptor, TripUpdate,
    VehicleDescriptor, VehiclePosition,
};
use std::alloc::{AllocError, Global};

/// When the first snapshot was taken, and when all progress was measured: POSIX time, in seconds.
pub(crate) const START: u64 = 1_700_000_000;

/// SCHEDULED, of a trip and of a stop time.
const SCHEDULED: u32 = 0;

/// A letter and a number behind it.
fn numbered(alloc: Global, letter: &str, number: usize) -> Result<Text, AllocError>
    ensures { IfOk result (λ text. text ≡ numbered letter.now number) }
{
    let written = format!(in alloc; "{letter}{number}")?;
    Text::of(alloc, written.as_str())
}

fn trip(alloc: Global, k: usize) -> Result<TripDescriptor, AllocError>
    ensures { IfOk result (λ trip. trip ≡ trip_of k) }
{
    Ok(TripDescriptor {
        trip_id: Some(numbered(alloc, "T", k)?),
        start_time: None,
        start_date: None,
        schedule_relationship: Some(SCHEDULED),
        route_id: None,
        direction_id: None,
        unknown: Items::new(alloc),
    })
}

fn vehicle(alloc: Global, k: usize, letter: Letter) -> Result<VehicleDescriptor, AllocError>
    ensures { IfOk result (λ vehicle. vehicle ≡ vehicle_of k letter) }
{
    Ok(VehicleDescriptor {
        id: Some(numbered(alloc, letter.text(), k)?),
        label: None,
        license_plate: None,
        unknown: Items::new(alloc),
    })
}

/// The one stop time update of a trip, with this delay of its arrival.
fn stop_updates(alloc: Global, delay: u32) -> Result<Items<StopTimeUpdate>, AllocError>
    requires { delay < 2 ^ 31 }
    ensures { IfOk result (λ updates. updates ≡ stop_update delay ∷ []) }
{
    let arrival = StopTimeEvent {
        delay: Some(delay as i32),
        time: None,
        uncertainty: None,
        unknown: Items::new(alloc),
    };
    let mut updates = Items::new(alloc);
    updates.push(StopTimeUpdate {
        stop_sequence: Some(1),
        arrival: Some(arrival),
        departure: None,
        stop_id: None,
        schedule_relationship: Some(SCHEDULED),
        stop_time_properties: None,
        unknown: Items::new(alloc),
    })?;
    Ok(updates)
}

/// Entity `k` of feed 0.
fn update_entity(alloc: Global, k: usize, state: EntityState) -> Result<Entity, AllocError>
    requires { state.number < 2 ^ 31 }
    ensures { IfOk result (λ entity. entity ≡ update_entity k state) }
{
    let update = TripUpdate {
        trip: trip(alloc, k)?,
        stop_time_update: stop_updates(alloc, state.number)?,
        vehicle: Some(vehicle(alloc, k, state.letter)?),
        timestamp: Some(START),
        delay: None,
        trip_properties: None,
        unknown: Items::new(alloc),
    };
    Ok(Entity {
        id: numbered(alloc, "u", k)?,
        is_deleted: None,
        trip_update: Some(Apart::new(alloc, update)?),
        vehicle: None,
        alert: None,
        unknown: Items::new(alloc),
    })
}

/// Entity `k` of feed 1.
fn position_entity(alloc: Global, k: usize, state: EntityState) -> Result<Entity, AllocError>
    ensures { IfOk result (λ entity. entity ≡ position_entity k state) }
{
    let position = VehiclePosition {
        trip: Some(trip(alloc, k)?),
        position: None,
        current_stop_sequence: Some(state.number),
        current_status: None,
        timestamp: Some(START),
        congestion_level: None,
        stop_id: None,
        vehicle: Some(vehicle(alloc, k, state.letter)?),
        occupancy_status: None,
        unknown: Items::new(alloc),
    };
    Ok(Entity {
        id: numbered(alloc, "p", k)?,
        is_deleted: None,
        trip_update: None,
        vehicle: Some(Apart::new(alloc, position)?),
        alert: None,
        unknown: Items::new(alloc),
    })
}

/// Entity `k` of a feed.
fn entity(alloc: Global, feed: u64, k: usize, state: EntityState) -> Result<Entity, AllocError>
    requires { state.number < 2 ^ 31 }
    ensures { IfOk result (λ entity. entity ≡ entity_of feed k state) }
{
    if feed == 0 {
        update_entity(alloc, k, state)
    } else {
        position_entity(alloc, k, state)
    }
}

/// The entities of a feed, by rising number.
pub(crate) fn entities(
    alloc: Global,
    feed: u64,
    states: &[EntityState],
) -> Result<Items<Entity>, AllocError>
    requires { AllBelow (2 ^ 31) states.now }
    ensures { IfOk result (λ entities. entities ≡ entities_of feed states.now) }
{
    let mut entities = Items::from_vec(Vec::with_capacity(alloc, states.len())?);
    for (k, state) in states.iter().enumerate() {
        entities.push(entity(alloc, feed, k, *state)?)?;
    }
    Ok(entities)
}

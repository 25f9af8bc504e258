//! What a slot of an entity holds, by one walk along its fields.
ghost use Rattle.std.specs.Prelude.{◌≡◌, ◌∷◌, [], Some, None, option_copied};
ghost use Rattle.std.specs.Option.{option_or};
ghost use Rattle.rt_wire.specs.Placed.{placed_field};
ghost use Rattle.feed_values.specs.Meaning.{fields, in_slot, payload_in};
ghost use Rattle.feed_codec.specs.LastPayloads as paths;

use feed_codec::{last_payload, payload_of};
use rt_wire::{Fields, RawField};

// The numbers of slots. (GTFS Realtime Reference 2.0, the protocol buffer's definition.)
const TRIP_UPDATE: u32 = 3;

const VEHICLE: u32 = 4;

const VEHICLE_OF_UPDATE: u32 = 3;

const VEHICLE_OF_POSITION: u32 = 8;

/// Of an update, and of a vehicle position.
const TRIP: u32 = 1;

/// Of a trip descriptor, and of a vehicle descriptor.
const ID: u32 = 1;

/// The last payload so far, and in all so far together the last ids of the trip and of the vehicle.
#[derive(Clone, Copy)]
pub struct SlotIds<'a> {
    pub payload: Option<&'a [u8]>,
    pub trip: Option<&'a [u8]>,
    pub vehicle: Option<&'a [u8]>,
}

/// The last id in a field of slot `slot`, or else the one before.
fn id_after<'a>(field: &RawField<'a>, slot: u32, before: Option<&'a [u8]>) -> Option<&'a [u8]>
    ensures { option_copied result ≡ option_or (paths.within [] 1 (in_slot payload_in slot (placed_field field.now).field)) (option_copied before.entry) }
{
    match payload_of(field, slot) {
        Some(descriptor) => last_payload(descriptor, ID).or(before),
        None => before,
    }
}

impl<'a> SlotIds<'a> {
    fn none() -> SlotIds<'a>
        ensures payload { option_copied result.payload ≡ None }
        ensures trip { option_copied result.trip ≡ None }
        ensures vehicle { option_copied result.vehicle ≡ None }
    {
        SlotIds {
            payload: None,
            trip: None,
            vehicle: None,
        }
    }

    /// With a payload more, whose vehicle is slot `vehicle`.
    fn and_in(self, payload: &'a [u8], vehicle: u32) -> SlotIds<'a>
        ensures payload { option_copied result.payload ≡ Some payload.now }
        ensures trip { option_copied result.trip ≡ option_or (paths.last_at (1 ∷ []) 1 (fields payload.now)) (option_copied self.entry.trip) }
        ensures vehicle { option_copied result.vehicle ≡ option_or (paths.last_at (vehicle ∷ []) 1 (fields payload.now)) (option_copied self.entry.vehicle) }
    {
        let mut found = self;
        found.payload = Some(payload);
        let mut fields = Fields::new(payload);
        while let Some(field) = fields.next() {
            match field {
                Ok(field) => {
                    if field.number == TRIP || field.number == vehicle {
                        found.trip = id_after(&field, TRIP, found.trip);
                        found.vehicle = id_after(&field, vehicle, found.vehicle);
                    }
                }
                Err(_) => return found,
            }
        }
        found
    }

    /// With a field more of the entity.
    fn and_field(self, field: &RawField<'a>, slot: u32, vehicle: u32) -> SlotIds<'a>
        ensures payload { option_copied result.payload ≡ option_or (in_slot payload_in slot (placed_field field.now).field) (option_copied self.entry.payload) }
        ensures trip { option_copied result.trip ≡ option_or (paths.within (1 ∷ []) 1 (in_slot payload_in slot (placed_field field.now).field)) (option_copied self.entry.trip) }
        ensures vehicle { option_copied result.vehicle ≡ option_or (paths.within (vehicle ∷ []) 1 (in_slot payload_in slot (placed_field field.now).field)) (option_copied self.entry.vehicle) }
    {
        match payload_of(field, slot) {
            Some(payload) => self.and_in(payload, vehicle),
            None => self,
        }
    }
}

/// What both slots of an entity hold.
#[derive(Clone, Copy)]
pub struct EntityIds<'a> {
    pub update: SlotIds<'a>,
    pub vehicle: SlotIds<'a>,
}

impl<'a> EntityIds<'a> {
    ghost use Rattle.snapshot_keys.specs.Ids.{AreLast};

    /// By one walk along the fields of an entity. Behind a fault nothing is read.
    pub fn at(entity: &'a [u8]) -> EntityIds<'a>
        ensures update { AreLast result.update 3 3 (fields entity.now) }
        ensures vehicle { AreLast result.vehicle 4 8 (fields entity.now) }
    {
        let mut found = EntityIds {
            update: SlotIds::none(),
            vehicle: SlotIds::none(),
        };
        let mut fields = Fields::new(entity);
        while let Some(field) = fields.next() {
            match field {
                Ok(field) => {
                    found.update = found
                        .update
                        .and_field(&field, TRIP_UPDATE, VEHICLE_OF_UPDATE);
                    found.vehicle = found
                        .vehicle
                        .and_field(&field, VEHICLE, VEHICLE_OF_POSITION);
                }
                Err(_) => return found,
            }
        }
        found
    }
}

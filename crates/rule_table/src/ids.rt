//! The ids that trip updates and vehicle positions give.
ghost use Rattle.std.specs.Prelude.{◌≡◌, option_copied, option_map, option_and_then};
ghost use Rattle.feed_values.specs.Views.{entity_value, trip_update_value, vehicle_position_value, vehicle_descriptor_value, trip_descriptor_value};
ghost use Rattle.rule_table.specs.Judged.{update_of};
ghost use Rattle.rule_table.specs.Pairs.{vehicle_of, vehicle_id_in, trip_id_in, same_id};
ghost use Rattle.rule_table.specs.Ids.{ids_value, of_update, of_vehicle, update_ids, vehicle_ids, same_ids};

use feed_values::{
    Entity, Text, TripDescriptor, TripUpdate, VehicleDescriptor, VehiclePosition, given,
};

/// The trip id and the vehicle id that are given.
#[derive(Clone, Copy)]
pub struct Ids<'a> {
    pub trip: Option<&'a Text>,
    pub vehicle: Option<&'a Text>,
}

fn vehicle_id(vehicle: &Option<VehicleDescriptor>) -> Option<&Text>
    ensures { option_copied result ≡ vehicle_id_in (option_map vehicle_descriptor_value vehicle.now) }
{
    match vehicle {
        None => None,
        Some(vehicle) => given(&vehicle.id),
    }
}

fn trip_id(trip: &Option<TripDescriptor>) -> Option<&Text>
    ensures { option_copied result ≡ option_and_then trip_id_in (option_map trip_descriptor_value trip.now) }
{
    match trip {
        None => None,
        Some(trip) => given(&trip.trip_id),
    }
}

/// The ids that a trip update gives.
pub fn ids_of_update(update: &TripUpdate) -> Ids<'_>
    ensures { ids_value result ≡ of_update (trip_update_value update.now) }
{
    Ids {
        trip: given(&update.trip.trip_id),
        vehicle: vehicle_id(&update.vehicle),
    }
}

/// The ids that a vehicle position gives.
pub fn ids_of_vehicle(position: &VehiclePosition) -> Ids<'_>
    ensures { ids_value result ≡ of_vehicle (vehicle_position_value position.now) }
{
    Ids {
        trip: trip_id(&position.trip),
        vehicle: vehicle_id(&position.vehicle),
    }
}

/// Those of an entity's trip update.
pub fn update_ids(entity: &Entity) -> Option<Ids<'_>>
    ensures { option_map ids_value result ≡ update_ids (entity_value entity.now) }
{
    match &entity.trip_update {
        None => None,
        Some(update) => Some(ids_of_update(update)),
    }
}

/// Those of its vehicle position.
pub fn vehicle_ids(entity: &Entity) -> Option<Ids<'_>>
    ensures { option_map ids_value result ≡ vehicle_ids (entity_value entity.now) }
{
    match &entity.vehicle {
        None => None,
        Some(position) => Some(ids_of_vehicle(position)),
    }
}

fn is_same_id(a: Option<&Text>, b: Option<&Text>) -> bool
    ensures { result ≡ same_id (option_copied a.entry) (option_copied b.entry) }
{
    match (a, b) {
        (None, None) => true,
        (Some(a), Some(b)) => a == b,
        _ => false,
    }
}

/// Whether another message is there and gives the same ids.
pub fn are_same_ids(a: Ids<'_>, other: Option<Ids<'_>>) -> bool
    ensures { result ≡ same_ids (ids_value a.entry) (option_map ids_value other.entry) }
{
    match other {
        None => false,
        Some(b) => is_same_id(a.trip, b.trip) && is_same_id(a.vehicle, b.vehicle),
    }
}

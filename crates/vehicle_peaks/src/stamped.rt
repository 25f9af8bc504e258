//! What the vehicle position of an entity gives.
ghost use Rattle.std.specs.Prelude.{◌≡◌, option_copied};
ghost use Rattle.feed_values.specs.Views.{entity_value};
ghost use Rattle.rule_table.specs.Peaks.{stamp_of, vehicle_id_of};

use feed_values::{Entity, Text};
use rule_table::ids_of_vehicle;

/// The id of its vehicle.
pub(crate) fn vehicle_id(entity: &Entity) -> Option<&Text>
    ensures { option_copied result ≡ vehicle_id_of (entity_value entity.now) }
{
    match &entity.vehicle {
        None => None,
        Some(position) => ids_of_vehicle(position).vehicle,
    }
}

/// Its timestamp, in POSIX seconds.
pub(crate) fn stamp(entity: &Entity) -> Option<u64>
    ensures { result ≡ stamp_of (entity_value entity.now) }
{
    match &entity.vehicle {
        None => None,
        Some(position) => position.timestamp,
    }
}

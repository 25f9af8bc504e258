//! Whether no rule breaks at an entity, by a look at a vehicle position that stands alone in it. Nothing here takes memory.
ghost use Rattle.std.specs.Prelude.{◌≡◌, Some, None, true, IfSome, option_copied};
ghost use Rattle.feed_values.specs.Cells.{number_cell, text_cell};
ghost use Rattle.feed_values.specs.Views.{entity_value, feed_header_value, natural};
ghost use Rattle.rule_table.specs.Pairs.{first_key};
ghost use Rattle.quiet_vehicles.specs.Quiet.{IsAlone, IsDescribed, IsKnown, IsQuiet, IsTimely, cells_in, is_paired, trip_id_in};

use crate::fields::{is_ahead, is_below, is_no_time, is_wrong_clock, is_wrong_date};
use feed_values::{Entity, VehiclePosition, given_text};
use judging::Setting;
use rule_table::{EntityKey, Kind, PairView};

/// The vehicle position of an entity that has nothing else, and is the first of its id.
fn vehicle_alone<'a>(key: &EntityKey, entity: &'a Entity) -> Option<&'a VehiclePosition>
    ensures { IfSome result (λ vehicle. IsAlone key.now (entity_value entity.now) vehicle.now) }
{
    if key.occurrence != 0 || entity.is_deleted.is_some() {
        return None;
    }
    match (&entity.trip_update, &entity.vehicle, &entity.alert) {
        (None, Some(vehicle), None) => Some(&**vehicle),
        _ => None,
    }
}

/// Whether the timestamp of a vehicle position is one that no rule minds, beside that of the header.
fn is_timely(header: Option<u64>, moment: u64, vehicle: &VehiclePosition) -> bool
    ensures { result ≡ true → IsTimely (number_cell (natural header)) moment (cells_in vehicle.now) }
{
    let timestamp = vehicle.timestamp;
    timestamp.is_some()
        && !is_no_time(timestamp)
        && !is_below(header, timestamp)
        && !is_ahead(timestamp, moment)
}

/// Whether its trip, where it has one, is described so that no rule minds.
fn is_described(vehicle: &VehiclePosition) -> bool
    ensures { result ≡ true → IsDescribed (cells_in vehicle.now) }
{
    match &vehicle.trip {
        None => true,
        Some(trip) => {
            trip.schedule_relationship.is_some()
                && !is_wrong_clock(&trip.start_time)
                && !is_wrong_date(&trip.start_date)
        }
    }
}

/// The trip_id of a vehicle position.
fn trip_id(vehicle: &VehiclePosition) -> Option<&str>
    ensures { text_cell (option_copied result) ≡ trip_id_in vehicle.now }
{
    match &vehicle.trip {
        None => None,
        Some(trip) => given_text(&trip.trip_id),
    }
}

/// Whether an entity is the first whose vehicle position gives a vehicle.
fn is_first<P: PairView>(view: &P, key: &EntityKey, vehicle: &str) -> bool
    ensures { result ≡ true → first_key (P.rows view.now) key.now.feed vehicle.now ≡ Some key.now }
{
    match view.first_key(key.feed, vehicle) {
        None => false,
        Some(first) => *first == *key,
    }
}

/// Whether there is no trip update, or one that gives both the trip and the vehicle.
fn is_paired<P: PairView>(view: &P, trip: Option<&str>, vehicle: &str) -> bool
    ensures { result ≡ is_paired (P.rows view.now) (option_copied trip.entry) vehicle.now }
{
    if !view.any_row(Kind::TripUpdate) {
        return true;
    }
    match trip {
        None => false,
        Some(trip) => view.has_pair(Kind::TripUpdate, trip, vehicle),
    }
}

/// Whether the vehicle of a vehicle position has an id, and one that no rule minds beside the other entities.
fn is_known<P: PairView>(view: &P, key: &EntityKey, vehicle: &VehiclePosition) -> bool
    ensures { result ≡ true → IsKnown (P.rows view.now) key.now (cells_in vehicle.now) }
{
    let Some(descriptor) = &vehicle.vehicle else {
        return false;
    };
    let Some(id) = given_text(&descriptor.id) else {
        return false;
    };
    is_first(view, key, id) && is_paired(view, trip_id(vehicle), id)
}

/// Whether an entity is a vehicle position at which no rule breaks, where no timetable is asked. Of other entities it says nothing.
pub fn is_quiet<P: PairView>(setting: &Setting<'_, P>, key: &EntityKey, entity: &Entity) -> bool
    ensures { result ≡ true → IsQuiet (P.rows setting.now.view.now) (feed_header_value setting.now.header.now) setting.now.moment key.now (entity_value entity.now) }
{
    let Some(vehicle) = vehicle_alone(key, entity) else {
        return false;
    };
    is_timely(setting.header.timestamp, setting.moment, vehicle)
        && is_described(vehicle)
        && is_known(setting.view, key, vehicle)
}

//! What the parts of an entity name.
ghost use Rattle.std.specs.Prelude.{◌≡◌, option_copied, option_map, option_and_then, map};
ghost use Rattle.feed_values.specs.Views.{entity_value, entity_selector_value, stop_time_update_value, trip_descriptor_value, vehicle_position_value};
ghost use Rattle.rule_table.specs.Judged.{update_of, alert_of};
ghost use Rattle.rule_table.specs.Pairs.{vehicle_of};
ghost use Rattle.timetable_agree.specs.Named.{named_value, nothing, by_trip, by_update, by_vehicle, by_selector, by_stop, selectors_of, stops_of, trip_id_of, route_id_of};

use feed_values::{
    Apart, Boxed, Entity, EntitySelector, StopTimeProperties, StopTimeUpdate, Text, TripDescriptor,
    VehiclePosition, given,
};

/// The ids of a timetable's rows that a part of an entity gives.
#[derive(Clone, Copy)]
pub struct Named<'a> {
    pub trip: Option<&'a Text>,
    /// The route of the trip descriptor.
    pub trip_route: Option<&'a Text>,
    /// The route that a selector gives beside a trip.
    pub route: Option<&'a Text>,
    pub stop: Option<&'a Text>,
    pub assigned_stop: Option<&'a Text>,
    pub agency: Option<&'a Text>,
}

fn nothing() -> Named<'static>
    ensures { named_value result ≡ nothing }
{
    Named {
        trip: None,
        trip_route: None,
        route: None,
        stop: None,
        assigned_stop: None,
        agency: None,
    }
}

fn of_descriptor(trip: &TripDescriptor) -> Named<'_>
    ensures { named_value result ≡ by_trip (Some (trip_descriptor_value trip.now)) }
{
    Named {
        trip: given(&trip.trip_id),
        trip_route: given(&trip.route_id),
        ..nothing()
    }
}

pub fn of_update(entity: &Entity) -> Named<'_>
    ensures { named_value result ≡ by_update (update_of (entity_value entity.now)) }
{
    match &entity.trip_update {
        None => nothing(),
        Some(update) => of_descriptor(&update.trip),
    }
}

fn of_trip(trip: &Option<TripDescriptor>) -> Named<'_>
    ensures { named_value result ≡ by_trip (option_map trip_descriptor_value trip.now) }
{
    match trip {
        None => nothing(),
        Some(trip) => of_descriptor(trip),
    }
}

fn of_position(vehicle: &VehiclePosition) -> Named<'_>
    ensures { named_value result ≡ by_vehicle (Some (vehicle_position_value vehicle.now)) }
{
    Named {
        stop: given(&vehicle.stop_id),
        ..of_trip(&vehicle.trip)
    }
}

pub fn of_vehicle(entity: &Entity) -> Named<'_>
    ensures { named_value result ≡ by_vehicle (vehicle_of (entity_value entity.now)) }
{
    match &entity.vehicle {
        None => nothing(),
        Some(vehicle) => of_position(vehicle),
    }
}

fn of_boxed_trip(trip: &Option<Boxed<TripDescriptor>>) -> Named<'_>
    ensures { named_value result ≡ by_trip (option_map trip_descriptor_value trip.now) }
{
    let Some(trip) = trip else {
        return nothing();
    };
    match trip.get() {
        None => nothing(),
        Some(trip) => of_descriptor(trip),
    }
}

fn of_given_selector(selector: &EntitySelector) -> Named<'_>
    ensures { named_value result ≡ by_selector (entity_selector_value selector.now) }
{
    Named {
        route: given(&selector.route_id),
        stop: given(&selector.stop_id),
        agency: given(&selector.agency_id),
        ..of_boxed_trip(&selector.trip)
    }
}

pub fn of_selector(selector: &Boxed<EntitySelector>) -> Named<'_>
    ensures { named_value result ≡ by_selector (entity_selector_value selector.now) }
{
    match selector.get() {
        None => nothing(),
        Some(selector) => of_given_selector(selector),
    }
}

fn assigned_stop(properties: &Option<Apart<StopTimeProperties>>) -> Option<&Text>
    ensures { option_copied result ≡ option_and_then (λ p. p.assigned_stop_id) properties.now }
{
    match properties {
        None => None,
        Some(properties) => given(&properties.assigned_stop_id),
    }
}

pub fn of_stop(update: &StopTimeUpdate) -> Named<'_>
    ensures { named_value result ≡ by_stop (stop_time_update_value update.now) }
{
    Named {
        stop: given(&update.stop_id),
        assigned_stop: assigned_stop(&update.stop_time_properties),
        ..nothing()
    }
}

pub fn selectors(entity: &Entity) -> &[Boxed<EntitySelector>]
    ensures { map entity_selector_value result.now ≡ selectors_of (alert_of (entity_value entity.now)) }
{
    match &entity.alert {
        None => &[],
        Some(alert) => alert.informed_entity.as_slice(),
    }
}

pub fn stops(entity: &Entity) -> &[StopTimeUpdate]
    ensures { map stop_time_update_value result.now ≡ stops_of (update_of (entity_value entity.now)) }
{
    match &entity.trip_update {
        None => &[],
        Some(update) => update.stop_time_update.as_slice(),
    }
}

//! Whether two timetables agree for an entity.
ghost use Rattle.std.specs.Prelude.{◌≡◌, map, option_copied};
ghost use Rattle.std.specs.List.{list_all};
ghost use Rattle.feed_values.specs.Views.{entity_value, entity_selector_value, stop_time_update_value};
ghost use Rattle.timetable.specs.Lookups.{tables_in};
ghost use Rattle.rule_history.specs.Answered.{tables_of};
ghost use Rattle.timetable_agree.specs.Alike.{same_trip, same_route, same_stop, same_agency};
ghost use Rattle.timetable_agree.specs.Named.{named_value, namings, by_selector, by_stop};
ghost use Rattle.timetable_agree.specs.Agree.{agree, if_given, same_named_trip, same_others};

use crate::named::{Named, of_selector, of_stop, of_update, of_vehicle, selectors, stops};
use crate::trips::{same_number, same_trip};
use feed_values::{Boxed, Entity, EntitySelector, StopTimeUpdate, Text};
use timetable::Timetable;

fn same_route(old: &Timetable, new: &Timetable, id: Option<&Text>) -> bool
    ensures { result ≡ if_given (same_route (tables_in old.now) (tables_in new.now)) (option_copied id.entry) }
{
    match id {
        None => true,
        Some(id) => old.has_route(id.as_str()) == new.has_route(id.as_str()),
    }
}

fn same_agency(old: &Timetable, new: &Timetable, id: Option<&Text>) -> bool
    ensures { result ≡ if_given (same_agency (tables_in old.now) (tables_in new.now)) (option_copied id.entry) }
{
    match id {
        None => true,
        Some(id) => old.has_agency(id.as_str()) == new.has_agency(id.as_str()),
    }
}

fn same_stop(old: &Timetable, new: &Timetable, id: Option<&Text>) -> bool
    ensures { result ≡ if_given (same_stop (tables_in old.now) (tables_in new.now)) (option_copied id.entry) }
{
    match id {
        None => true,
        Some(id) => same_number(old.stop_kind(id.as_str()), new.stop_kind(id.as_str())),
    }
}

fn same_others(old: &Timetable, new: &Timetable, named: Named<'_>) -> bool
    ensures { result ≡ same_others (tables_in old.now) (tables_in new.now) (named_value named.entry) }
{
    same_route(old, new, named.trip_route)
        && same_route(old, new, named.route)
        && same_stop(old, new, named.stop)
        && same_stop(old, new, named.assigned_stop)
        && same_agency(old, new, named.agency)
}

fn same_selector(old: &Timetable, new: &Timetable, selector: &Boxed<EntitySelector>) -> bool
    ensures { result ≡ same_others (tables_in old.now) (tables_in new.now) (by_selector (entity_selector_value selector.now)) }
{
    same_others(old, new, of_selector(selector))
}

fn same_selectors(old: &Timetable, new: &Timetable, selectors: &[Boxed<EntitySelector>]) -> bool
    ensures { result ≡ list_all (λ s. same_others (tables_in old.now) (tables_in new.now) (by_selector (entity_selector_value s))) selectors.now }
{
    selectors
        .iter()
        .all(|selector| same_selector(old, new, selector))
}

fn same_update(old: &Timetable, new: &Timetable, update: &StopTimeUpdate) -> bool
    ensures { result ≡ same_others (tables_in old.now) (tables_in new.now) (by_stop (stop_time_update_value update.now)) }
{
    same_others(old, new, of_stop(update))
}

fn same_updates(old: &Timetable, new: &Timetable, updates: &[StopTimeUpdate]) -> bool
    ensures { result ≡ list_all (λ u. same_others (tables_in old.now) (tables_in new.now) (by_stop (stop_time_update_value u))) updates.now }
{
    updates.iter().all(|update| same_update(old, new, update))
}

/// Whether two timetables say the same of all ids that an entity gives but those of trips.
pub(crate) fn others_agree(old: &Timetable, new: &Timetable, entity: &Entity) -> bool
    ensures { result ≡ list_all (same_others (tables_in old.now) (tables_in new.now)) (namings (entity_value entity.now)) }
{
    if !same_others(old, new, of_update(entity)) {
        return false;
    }
    if !same_others(old, new, of_vehicle(entity)) {
        return false;
    }
    if !same_selectors(old, new, selectors(entity)) {
        return false;
    }
    same_updates(old, new, stops(entity))
}

fn same_named_trip(old: &Timetable, new: &Timetable, named: Named<'_>) -> bool
    ensures { result ≡ same_named_trip (tables_in old.now) (tables_in new.now) (named_value named.entry) }
{
    match named.trip {
        None => true,
        Some(id) => same_trip(old, new, id.as_str()),
    }
}

fn same_selected_trip(old: &Timetable, new: &Timetable, selector: &Boxed<EntitySelector>) -> bool
    ensures { result ≡ same_named_trip (tables_in old.now) (tables_in new.now) (by_selector (entity_selector_value selector.now)) }
{
    same_named_trip(old, new, of_selector(selector))
}

fn same_selected_trips(
    old: &Timetable,
    new: &Timetable,
    selectors: &[Boxed<EntitySelector>],
) -> bool
    ensures { result ≡ list_all (λ s. same_named_trip (tables_in old.now) (tables_in new.now) (by_selector (entity_selector_value s))) selectors.now }
{
    selectors
        .iter()
        .all(|selector| same_selected_trip(old, new, selector))
}

fn trips_agree(old: &Timetable, new: &Timetable, entity: &Entity) -> bool
    ensures { result ≡ list_all (same_named_trip (tables_in old.now) (tables_in new.now)) (namings (entity_value entity.now)) }
{
    if !same_named_trip(old, new, of_update(entity)) {
        return false;
    }
    if !same_named_trip(old, new, of_vehicle(entity)) {
        return false;
    }
    same_selected_trips(old, new, selectors(entity))
}

/// Whether two timetables agree for an entity: both are absent; or both are there, and every trip, route, stop and agency
/// that the entity names is unknown to both, or known to both and the same in all that rules ask of it. Of a trip these are its
/// route, its direction, its stop times, by their stops' ids, and its frequencies; of a stop its location type.
///
/// It takes no memory. Where many selectors of an alert name one trip, its stop times are compared for each: `Comparison`
/// compares them once.
pub fn agrees(old: &Timetable, new: &Timetable, entity: &Entity) -> bool
    ensures { result ≡ agree (tables_of old.now) (tables_of new.now) (entity_value entity.now) }
{
    match (old.is_present(), new.is_present()) {
        (false, false) => true,
        (true, true) => others_agree(old, new, entity) && trips_agree(old, new, entity),
        _ => false,
    }
}

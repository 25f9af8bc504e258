//! Slots at which some rules are known to break nowhere, so that they needn't be judged there.
ghost use Rattle.std.specs.Prelude.{◌≡◌, Option, true, is_some, length};
ghost use Rattle.std.specs.Option.{is_none};
ghost use Rattle.std.specs.List.{list_all};
ghost use Rattle.feed_values.specs.Views.{entity_value};
ghost use Rattle.feed_values.specs.declared.cell_value.CellValue.{CellValue};
ghost use Rattle.timetable.specs.Lookups.{is_present, tables_in};
ghost use Rattle.rule_history.specs.Answered.{tables_of, local_answer};
ghost use Rattle.rule_clear.specs.Clear.{AreClear, IsSettledBy, cleared};
ghost use Rattle.rule_clear.specs.Keeping.{KeepBelow};
ghost use Rattle.rule_table.specs.ClearSlots.{HasCells};
ghost use Rattle.rule_table.specs.Same.{SameFrom};
ghost use Rattle.rule_clear.specs.Sound.{AreUpdates, SoundBelow};
ghost use Rattle.rule_table.specs.Sources.{is_local};
ghost use Rattle.rule_table.specs.declared.ask.Ask.{Ask};
ghost use Rattle.rule_table.specs.declared.key.EntityKey.{EntityKey};

use crate::keeping::keep;
use crate::sound::are_sound;
use feed_values::{Entity, Slot, StopTimeUpdate};
use rule_table::{ClearSlots, RuleId};
use timetable::Timetable;

/// What a look along the stop time updates of an entity is for.
#[derive(Clone, Copy, Debug, PartialEq, Eq)]
pub enum Look {
    /// Whether each is sound: for rules within a message.
    Soundness,
    /// Whether each gives its schedule_relationship: for the one that wants it.
    Relationships,
    /// Whether each keeps to the timetable, whether each gives its stop_sequence, and whether none assigns another stop: for rules against the
    /// timetable.
    Timetable,
    /// All of these.
    Everything,
}

/// What looks have shown of an entity: of its stop time updates, and which messages it hasn't. Each that is false shows nothing.
#[derive(Clone, Copy, Debug)]
pub struct Clear {
    /// Each is sound: it breaks no rule within the message, by itself and after the one before it. That each gives a
    /// schedule_relationship isn't asked.
    sound: bool,
    /// Each gives its schedule_relationship.
    related: bool,
    /// Each keeps to the timetable. That each gives a stop_sequence isn't asked.
    kept: bool,
    /// Each gives its stop_sequence.
    sequenced: bool,
    /// None assigns another stop.
    unassigned: bool,
    /// The entity has no trip update.
    without_update: bool,
    /// The entity has no vehicle position.
    without_vehicle: bool,
}

/// What settles that a rule breaks nowhere at a slot.
#[derive(Clone, Copy, Debug)]
enum Settling {
    Soundness,
    Relationships,
    Timetable,
    Sequences,
    Assignments,
    NoTripUpdate,
    NoVehicle,
    Nothing,
}

/// Whether each update gives its schedule_relationship.
fn are_related(stops: &[StopTimeUpdate]) -> bool
    ensures { result ≡ list_all (λ stop. is_some stop.schedule_relationship) stops.now }
{
    stops
        .iter()
        .all(|stop| stop.schedule_relationship.is_some())
}

/// Whether each update gives its stop_sequence.
fn are_sequenced(stops: &[StopTimeUpdate]) -> bool
    ensures { result ≡ list_all (λ stop. is_some stop.stop_sequence) stops.now }
{
    stops.iter().all(|stop| stop.stop_sequence.is_some())
}

/// Whether no update assigns another stop than the timetable's.
fn are_unassigned(stops: &[StopTimeUpdate]) -> bool
    ensures { result ≡ list_all (λ stop. is_none stop.stop_time_properties) stops.now }
{
    stops.iter().all(|stop| stop.stop_time_properties.is_none())
}

impl Look {
    fn has(self, part: Look) -> bool {
        self == part || self == Look::Everything
    }

    fn sees_sound(self, entity: &Entity, stops: &[StopTimeUpdate]) -> bool
        requires { AreUpdates (entity_value entity.now) stops.now }
        ensures { result ≡ true → SoundBelow (entity_value entity.now) (length stops.now) }
    {
        self.has(Look::Soundness) && are_sound(entity, stops)
    }

    fn sees_related(self, stops: &[StopTimeUpdate]) -> bool
        ensures { result ≡ true → list_all (λ stop. is_some stop.schedule_relationship) stops.now ≡ true }
    {
        self.has(Look::Relationships) && are_related(stops)
    }

    fn sees_kept(self, table: &Timetable, entity: &Entity, stops: &[StopTimeUpdate]) -> bool
        requires { AreUpdates (entity_value entity.now) stops.now }
        ensures present { result ≡ true → is_present table.now ≡ true }
        ensures kept { result ≡ true → KeepBelow (tables_in table.now) (entity_value entity.now) (length stops.now) }
    {
        self.has(Look::Timetable) && table.is_present() && keep(table, entity, stops)
    }

    fn sees_sequenced(self, stops: &[StopTimeUpdate]) -> bool
        ensures { result ≡ true → list_all (λ stop. is_some stop.stop_sequence) stops.now ≡ true }
    {
        self.has(Look::Timetable) && are_sequenced(stops)
    }

    fn sees_unassigned(self, stops: &[StopTimeUpdate]) -> bool
        ensures { result ≡ true → list_all (λ stop. is_none stop.stop_time_properties) stops.now ≡ true }
    {
        self.has(Look::Timetable) && are_unassigned(stops)
    }

    /// What is seen at an entity, for all that answers as the entity and the timetable do. Where there are no updates there is
    /// nothing to be seen of them.
    pub fn at(self, table: &Timetable, entity: &Entity) -> Clear
        ensures { (key : EntityKey) (answer : Ask → Option CellValue)
            → SameFrom is_local (local_answer (tables_of table.now) key (entity_value entity.now)) answer
            → AreClear answer key (entity_value entity.now) result }
    {
        let Some(update) = &entity.trip_update else {
            return Clear::unseen(entity);
        };
        let stops = update.stop_time_update.as_slice();
        if stops.is_empty() {
            return Clear::unseen(entity);
        }
        Clear {
            sound: self.sees_sound(entity, stops),
            related: self.sees_related(stops),
            kept: self.sees_kept(table, entity, stops),
            sequenced: self.sees_sequenced(stops),
            unassigned: self.sees_unassigned(stops),
            without_update: false,
            without_vehicle: entity.vehicle.is_none(),
        }
    }
}

/// What settles that a rule breaks nowhere at a slot, where that is shown.
fn what_settles(rule: RuleId, slot: Slot) -> Settling
    ensures { IsSettledBy result (rule, slot) }
{
    match (rule, slot) {
        (RuleId::E001, Slot::UPDATE_ARRIVAL_TIME | Slot::UPDATE_DEPARTURE_TIME) =>
            Settling::Soundness,
        (RuleId::E002 | RuleId::E036, Slot::UPDATE_STOP_SEQUENCE) => Settling::Soundness,
        (RuleId::E022 | RuleId::E040 | RuleId::E043, Slot::UPDATE_STOP) => Settling::Soundness,
        (RuleId::E025, Slot::UPDATE_DEPARTURE_TIME) => Settling::Soundness,
        (RuleId::E037, Slot::UPDATE_STOP_ID) => Settling::Soundness,
        (RuleId::E042 | RuleId::E044, Slot::UPDATE_ARRIVAL | Slot::UPDATE_DEPARTURE) =>
            Settling::Soundness,
        (RuleId::W009, Slot::UPDATE_STOP_RELATIONSHIP) => Settling::Relationships,
        (RuleId::E011 | RuleId::E015 | RuleId::E045, Slot::UPDATE_STOP_ID) => Settling::Timetable,
        (RuleId::E046, Slot::UPDATE_ARRIVAL | Slot::UPDATE_DEPARTURE) => Settling::Timetable,
        (RuleId::E051, Slot::UPDATE_STOP_SEQUENCE) => Settling::Timetable,
        (RuleId::E009, Slot::UPDATE_STOP_SEQUENCE) => Settling::Sequences,
        (RuleId::E011 | RuleId::E015, Slot::UPDATE_ASSIGNED_STOP_ID) => Settling::Assignments,
        (RuleId::E001 | RuleId::E012 | RuleId::E050 | RuleId::W001, Slot::UPDATE_TIMESTAMP) => {
            Settling::NoTripUpdate
        }
        (
            RuleId::E003 | RuleId::E006 | RuleId::E016 | RuleId::W003 | RuleId::W006,
            Slot::UPDATE_TRIP_ID,
        ) => { Settling::NoTripUpdate }
        (RuleId::E019 | RuleId::E020 | RuleId::E023, Slot::UPDATE_START_TIME) =>
            Settling::NoTripUpdate,
        (RuleId::E020, Slot::UPDATE_PROPERTIES_START_TIME) => Settling::NoTripUpdate,
        (RuleId::E021, Slot::UPDATE_START_DATE | Slot::UPDATE_PROPERTIES_START_DATE) =>
            Settling::NoTripUpdate,
        (RuleId::E013 | RuleId::W009, Slot::UPDATE_TRIP_RELATIONSHIP) => Settling::NoTripUpdate,
        (RuleId::E004 | RuleId::E035, Slot::UPDATE_ROUTE_ID) => Settling::NoTripUpdate,
        (RuleId::E024, Slot::UPDATE_DIRECTION_ID) => Settling::NoTripUpdate,
        (RuleId::E041, Slot::UPDATE_STOPS) => Settling::NoTripUpdate,
        (RuleId::E047 | RuleId::W002 | RuleId::W003 | RuleId::W005, Slot::UPDATE_VEHICLE_ID) => {
            Settling::NoTripUpdate
        }
        (RuleId::E003 | RuleId::E006 | RuleId::E016 | RuleId::W003, Slot::VEHICLE_TRIP_ID) => {
            Settling::NoVehicle
        }
        (RuleId::E019 | RuleId::E020 | RuleId::E023, Slot::VEHICLE_START_TIME) =>
            Settling::NoVehicle,
        (RuleId::E021, Slot::VEHICLE_START_DATE) => Settling::NoVehicle,
        (RuleId::E013 | RuleId::W009, Slot::VEHICLE_TRIP_RELATIONSHIP) => Settling::NoVehicle,
        (RuleId::E004 | RuleId::E035, Slot::VEHICLE_ROUTE_ID) => Settling::NoVehicle,
        (RuleId::E024, Slot::VEHICLE_DIRECTION_ID) => Settling::NoVehicle,
        (RuleId::E047 | RuleId::E052 | RuleId::W002 | RuleId::W003, Slot::VEHICLE_ID) => {
            Settling::NoVehicle
        }
        (
            RuleId::E001 | RuleId::E012 | RuleId::E050 | RuleId::W001 | RuleId::X001,
            Slot::VEHICLE_TIMESTAMP,
        ) => Settling::NoVehicle,
        (RuleId::E011 | RuleId::E015, Slot::VEHICLE_STOP_ID) => Settling::NoVehicle,
        _ => Settling::Nothing,
    }
}

impl Clear {
    /// Of the stop time updates nothing is shown; which messages the entity hasn't is.
    fn unseen(entity: &Entity) -> Clear
        ensures { (key : EntityKey) (answer : Ask → Option CellValue) → HasCells answer (entity_value entity.now) → AreClear answer key (entity_value entity.now) result }
    {
        Clear {
            sound: false,
            related: false,
            kept: false,
            sequenced: false,
            unassigned: false,
            without_update: entity.trip_update.is_none(),
            without_vehicle: entity.vehicle.is_none(),
        }
    }

    /// All that looks at an entity show, once for all rules: which messages it hasn't, and whether its stop time updates are
    /// sound, keep to the timetable, give their schedule_relationship and their stop_sequence, and assign no other stop.
    pub fn of(table: &Timetable, entity: &Entity) -> Clear
        ensures { (key : EntityKey) (answer : Ask → Option CellValue)
            → SameFrom is_local (local_answer (tables_of table.now) key (entity_value entity.now)) answer
            → AreClear answer key (entity_value entity.now) result }
    {
        Look::Everything.at(table, entity)
    }
}

impl ClearSlots for Clear {
    ghost pairs = { λ c. cleared c };

    fn has(&self, rule: RuleId, slot: Slot) -> bool {
        match what_settles(rule, slot) {
            Settling::Soundness => self.sound,
            Settling::Relationships => self.related,
            Settling::Timetable => self.kept,
            Settling::Sequences => self.sequenced,
            Settling::Assignments => self.unassigned,
            Settling::NoTripUpdate => self.without_update,
            Settling::NoVehicle => self.without_vehicle,
            Settling::Nothing => false,
        }
    }
}

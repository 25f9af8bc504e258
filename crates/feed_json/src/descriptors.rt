//! What names a trip or a vehicle, in JSON.

ghost use Rattle.std.specs.Prelude.{◌≡◌, map, [], IfOk};
ghost use Rattle.std.specs.List.{AllByRecursion};
ghost use Rattle.serde_json.specs.View.{view};
ghost use Rattle.feed_values.specs.Schema as schema;
ghost use Rattle.feed_values.specs.Messages.{trip_descriptor};
ghost use Rattle.feed_values.specs.Views.{trip_descriptor_value, unknown_value, unknown_field};
ghost use Rattle.feed_json.specs.Holds.{Holds};
ghost use Rattle.feed_json.specs.Later.{IsItem, is_more, with_unknown};
ghost use Rattle.feed_json.specs.Reads.{Reads};
ghost use Rattle.feed_json.specs.Unform.{slots_of};

use crate::json_fault::JsonFault;
use crate::later::{Later, is_item_of, settle};
use crate::message::Form;
use crate::reading::{optional_enum_or, optional_text, optional_u32};
use crate::unknown::{UnknownItems, items_at, put_unknown, unknown_fields};
use crate::writing::{put_optional_text, put_u32};
use feed_values::{Blank, Items, Slots, TripDescriptor, Unknown, UnknownValue, VehicleDescriptor};
use serde_json::{Map, Value};
use std::alloc::{AllocError, Global};
use std::mem;

// (GTFS Realtime Reference 2.0, "ScheduleRelationship" of a trip.)
const DUPLICATED: u32 = 6;

/// Whether a value is the number of DUPLICATED, by its low 32 bits.
fn is_duplicated(value: &UnknownValue) -> bool
    ensures { result ≡ is_more (schema.EnumOr 0 3 6) (unknown_value value.now) }
{
    match value {
        UnknownValue::Varint(number) => *number % (1 << 32) == u64::from(DUPLICATED),
        _ => false,
    }
}

/// Reads each slot to where it stands, with all items of `unknown`, so that nothing is owned where one has a fault.
fn fill(alloc: Global, value: &Value, message: &mut TripDescriptor) -> Result<(), JsonFault>
    ensures read { Reads (λ _. trip_descriptor_value message.new) (slots_of trip_descriptor trip_descriptor (view value.now)) result }
    ensures holds { IfOk result (λ _. Holds trip_descriptor trip_descriptor (with_unknown trip_descriptor [] (trip_descriptor_value message.new))) }
    ensures items { IfOk result (λ _. AllByRecursion (IsItem trip_descriptor) (map unknown_field message.new.unknown)) }
{
    message.trip_id = optional_text(alloc, value, "trip_id")?;
    message.start_time = optional_text(alloc, value, "start_time")?;
    message.start_date = optional_text(alloc, value, "start_date")?;
    message.schedule_relationship = optional_enum_or(
        alloc,
        value,
        "schedule_relationship",
        0,
        3,
        6,
    )?;
    message.route_id = optional_text(alloc, value, "route_id")?;
    message.direction_id = optional_u32(alloc, value, "direction_id")?;
    message.unknown = items_at::<TripDescriptor>(alloc, value)?;
    Ok(())
}

impl Later for TripDescriptor {
    fn is_moved(field: &Unknown) -> bool {
        field.number == 4 && is_duplicated(&field.value)
    }

    fn may_move(_field: &Unknown) -> bool {
        true
    }

    fn take(&mut self, _alloc: Global, field: &Unknown) -> Result<(), AllocError> {
        if field.number == 4 && is_duplicated(&field.value) {
            self.schedule_relationship = Some(DUPLICATED);
        }
        Ok(())
    }

    fn replace_unknown(&mut self, unknown: Items<Unknown>) -> Items<Unknown> {
        mem::replace(&mut self.unknown, unknown)
    }
}

impl UnknownItems for TripDescriptor {
    fn is_item(field: &Unknown) -> bool {
        is_item_of::<TripDescriptor>(field)
    }
}

impl Form for TripDescriptor {
    fn names() -> &'static [&'static str] {
        &[
            "trip_id",
            "start_time",
            "start_date",
            "schedule_relationship",
            "route_id",
            "direction_id",
            "unknown",
        ]
    }

    fn read(alloc: Global, value: &Value) -> Result<TripDescriptor, JsonFault> {
        let mut trip = TripDescriptor::blank(alloc);
        fill(alloc, value, &mut trip)?;
        Ok(settle(alloc, trip)?)
    }

    fn put(&self, alloc: Global, members: &mut Map<String, Value>) -> Result<(), AllocError> {
        put_optional_text(alloc, members, "trip_id", &self.trip_id)?;
        put_optional_text(alloc, members, "start_time", &self.start_time)?;
        put_optional_text(alloc, members, "start_date", &self.start_date)?;
        put_u32(
            alloc,
            members,
            "schedule_relationship",
            self.schedule_relationship,
        )?;
        put_optional_text(alloc, members, "route_id", &self.route_id)?;
        put_u32(alloc, members, "direction_id", self.direction_id)?;
        put_unknown(alloc, members, &self.unknown)
    }
}

impl UnknownItems for VehicleDescriptor {
    fn is_item(field: &Unknown) -> bool {
        !VehicleDescriptor::takes(field)
    }
}

impl Form for VehicleDescriptor {
    fn names() -> &'static [&'static str] {
        &["id", "label", "license_plate", "unknown"]
    }

    fn read(alloc: Global, value: &Value) -> Result<VehicleDescriptor, JsonFault> {
        Ok(VehicleDescriptor {
            id: optional_text(alloc, value, "id")?,
            label: optional_text(alloc, value, "label")?,
            license_plate: optional_text(alloc, value, "license_plate")?,
            unknown: unknown_fields::<VehicleDescriptor>(alloc, value)?,
        })
    }

    fn put(&self, alloc: Global, members: &mut Map<String, Value>) -> Result<(), AllocError> {
        put_optional_text(alloc, members, "id", &self.id)?;
        put_optional_text(alloc, members, "label", &self.label)?;
        put_optional_text(alloc, members, "license_plate", &self.license_plate)?;
        put_unknown(alloc, members, &self.unknown)
    }
}

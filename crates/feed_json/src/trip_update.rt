//! Trip updates and what they hold, in JSON.

ghost use Rattle.std.specs.Prelude.{◌≡◌, map, [], IfOk};
ghost use Rattle.std.specs.List.{AllByRecursion};
ghost use Rattle.serde_json.specs.View.{view};
ghost use Rattle.feed_values.specs.Messages.{trip_update, stop_time_update};
ghost use Rattle.feed_values.specs.Views.{trip_update_value, stop_time_update_value, unknown_field};
ghost use Rattle.feed_json.specs.Holds.{Holds};
ghost use Rattle.feed_json.specs.Later.{IsItem, with_unknown};
ghost use Rattle.feed_json.specs.Reads.{Reads};
ghost use Rattle.feed_json.specs.Unform.{slots_of};

use crate::json_fault::JsonFault;
use crate::later::{Later, is_item_of, settle};
use crate::message::{Form, needed_message, optional_message, repeated};
use crate::properties::{with_stop_time_properties, with_trip_properties};
use crate::reading::{
    optional_enum, optional_i32, optional_i64, optional_text, optional_u32, optional_u64,
};
use crate::unknown::{UnknownItems, items_at, put_unknown, unknown_fields};
use crate::writing::{
    put_i32, put_i64, put_message, put_optional, put_optional_text, put_repeated, put_u32, put_u64,
};
use feed_codec::{
    check_stop_time_properties, check_trip_properties, decode_stop_time_properties,
    decode_trip_properties,
};
use feed_values::{Items, Slots, StopTimeEvent, StopTimeUpdate, TripUpdate, Unknown, UnknownValue};
use serde_json::{Map, Value};
use std::alloc::{AllocError, Global};
use std::mem;

/// Reads each slot to where it stands, with all items of `unknown`, so that nothing is owned where one has a fault.
fn fill(alloc: Global, value: &Value, message: &mut TripUpdate) -> Result<(), JsonFault>
    ensures read { Reads (λ _. trip_update_value message.new) (slots_of trip_update trip_update (view value.now)) result }
    ensures holds { IfOk result (λ _. Holds trip_update trip_update (with_unknown trip_update [] (trip_update_value message.new))) }
    ensures items { IfOk result (λ _. AllByRecursion (IsItem trip_update) (map unknown_field message.new.unknown)) }
{
    message.trip = needed_message(alloc, value, "trip")?;
    message.stop_time_update = repeated(alloc, value, "stop_time_update")?;
    message.vehicle = optional_message(alloc, value, "vehicle")?;
    message.timestamp = optional_u64(alloc, value, "timestamp")?;
    message.delay = optional_i32(alloc, value, "delay")?;
    message.trip_properties = optional_message(alloc, value, "trip_properties")?;
    message.unknown = items_at::<TripUpdate>(alloc, value)?;
    Ok(())
}

impl Later for TripUpdate {
    fn is_moved(field: &Unknown) -> bool {
        field.number == 6 && matches!(field.value, UnknownValue::Len(_))
    }

    fn may_move(field: &Unknown) -> bool {
        match &field.value {
            UnknownValue::Len(payload) => {
                field.number != 6 || check_trip_properties(payload.as_slice()).is_ok()
            }
            _ => true,
        }
    }

    fn take(&mut self, alloc: Global, field: &Unknown) -> Result<(), AllocError> {
        if !TripUpdate::is_moved(field) {
            return Ok(());
        }
        let UnknownValue::Len(payload) = &field.value else {
            return Ok(());
        };
        let Ok(given) = decode_trip_properties(alloc, payload.as_slice()) else {
            return Err(AllocError);
        };
        let held = self.trip_properties.take();
        self.trip_properties = Some(with_trip_properties(alloc, held, given)?);
        Ok(())
    }

    fn replace_unknown(&mut self, unknown: Items<Unknown>) -> Items<Unknown> {
        mem::replace(&mut self.unknown, unknown)
    }
}

impl UnknownItems for TripUpdate {
    fn is_item(field: &Unknown) -> bool {
        is_item_of::<TripUpdate>(field)
    }
}

impl Form for TripUpdate {
    fn names() -> &'static [&'static str] {
        &[
            "trip",
            "stop_time_update",
            "vehicle",
            "timestamp",
            "delay",
            "trip_properties",
            "unknown",
        ]
    }

    fn read(alloc: Global, value: &Value) -> Result<TripUpdate, JsonFault> {
        let mut message = Box::new(alloc, TripUpdate::blank(alloc)).map_err(AllocError::from)?;
        fill(alloc, value, &mut message)?;
        Ok(settle(alloc, Box::into_inner(message))?)
    }

    fn put(&self, alloc: Global, members: &mut Map<String, Value>) -> Result<(), AllocError> {
        put_message(alloc, members, "trip", &self.trip)?;
        put_repeated(alloc, members, "stop_time_update", &self.stop_time_update)?;
        put_optional(alloc, members, "vehicle", &self.vehicle)?;
        put_u64(alloc, members, "timestamp", self.timestamp)?;
        put_i32(alloc, members, "delay", self.delay)?;
        put_optional(alloc, members, "trip_properties", &self.trip_properties)?;
        put_unknown(alloc, members, &self.unknown)
    }
}

/// Reads each slot of an update of a stop, as `fill` does.
fn fill_stop(alloc: Global, value: &Value, message: &mut StopTimeUpdate) -> Result<(), JsonFault>
    ensures read { Reads (λ _. stop_time_update_value message.new) (slots_of stop_time_update stop_time_update (view value.now)) result }
    ensures holds { IfOk result (λ _. Holds stop_time_update stop_time_update (with_unknown stop_time_update [] (stop_time_update_value message.new))) }
    ensures items { IfOk result (λ _. AllByRecursion (IsItem stop_time_update) (map unknown_field message.new.unknown)) }
{
    message.stop_sequence = optional_u32(alloc, value, "stop_sequence")?;
    message.arrival = optional_message(alloc, value, "arrival")?;
    message.departure = optional_message(alloc, value, "departure")?;
    message.stop_id = optional_text(alloc, value, "stop_id")?;
    message.schedule_relationship = optional_enum(alloc, value, "schedule_relationship", 0, 2)?;
    message.stop_time_properties = optional_message(alloc, value, "stop_time_properties")?;
    message.unknown = items_at::<StopTimeUpdate>(alloc, value)?;
    Ok(())
}

impl Later for StopTimeUpdate {
    fn is_moved(field: &Unknown) -> bool {
        field.number == 6 && matches!(field.value, UnknownValue::Len(_))
    }

    fn may_move(field: &Unknown) -> bool {
        match &field.value {
            UnknownValue::Len(payload) => {
                field.number != 6 || check_stop_time_properties(payload.as_slice()).is_ok()
            }
            _ => true,
        }
    }

    fn take(&mut self, alloc: Global, field: &Unknown) -> Result<(), AllocError> {
        if !StopTimeUpdate::is_moved(field) {
            return Ok(());
        }
        let UnknownValue::Len(payload) = &field.value else {
            return Ok(());
        };
        let Ok(given) = decode_stop_time_properties(alloc, payload.as_slice()) else {
            return Err(AllocError);
        };
        let held = self.stop_time_properties.take();
        self.stop_time_properties = Some(with_stop_time_properties(alloc, held, given)?);
        Ok(())
    }

    fn replace_unknown(&mut self, unknown: Items<Unknown>) -> Items<Unknown> {
        mem::replace(&mut self.unknown, unknown)
    }
}

impl UnknownItems for StopTimeUpdate {
    fn is_item(field: &Unknown) -> bool {
        is_item_of::<StopTimeUpdate>(field)
    }
}

impl Form for StopTimeUpdate {
    fn names() -> &'static [&'static str] {
        &[
            "stop_sequence",
            "arrival",
            "departure",
            "stop_id",
            "schedule_relationship",
            "stop_time_properties",
            "unknown",
        ]
    }

    fn read(alloc: Global, value: &Value) -> Result<StopTimeUpdate, JsonFault> {
        let mut update = StopTimeUpdate::blank(alloc);
        fill_stop(alloc, value, &mut update)?;
        Ok(settle(alloc, update)?)
    }

    fn put(&self, alloc: Global, members: &mut Map<String, Value>) -> Result<(), AllocError> {
        put_u32(alloc, members, "stop_sequence", self.stop_sequence)?;
        put_optional(alloc, members, "arrival", &self.arrival)?;
        put_optional(alloc, members, "departure", &self.departure)?;
        put_optional_text(alloc, members, "stop_id", &self.stop_id)?;
        put_u32(
            alloc,
            members,
            "schedule_relationship",
            self.schedule_relationship,
        )?;
        put_optional(
            alloc,
            members,
            "stop_time_properties",
            &self.stop_time_properties,
        )?;
        put_unknown(alloc, members, &self.unknown)
    }
}

impl UnknownItems for StopTimeEvent {
    fn is_item(field: &Unknown) -> bool {
        !StopTimeEvent::takes(field)
    }
}

impl Form for StopTimeEvent {
    fn names() -> &'static [&'static str] {
        &["delay", "time", "uncertainty", "unknown"]
    }

    fn read(alloc: Global, value: &Value) -> Result<StopTimeEvent, JsonFault> {
        Ok(StopTimeEvent {
            delay: optional_i32(alloc, value, "delay")?,
            time: optional_i64(alloc, value, "time")?,
            uncertainty: optional_i32(alloc, value, "uncertainty")?,
            unknown: unknown_fields::<StopTimeEvent>(alloc, value)?,
        })
    }

    fn put(&self, alloc: Global, members: &mut Map<String, Value>) -> Result<(), AllocError> {
        put_i32(alloc, members, "delay", self.delay)?;
        put_i64(alloc, members, "time", self.time)?;
        put_i32(alloc, members, "uncertainty", self.uncertainty)?;
        put_unknown(alloc, members, &self.unknown)
    }
}

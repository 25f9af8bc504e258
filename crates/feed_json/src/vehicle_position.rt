//! Vehicle positions and what they hold, in JSON.

ghost use Rattle.std.specs.Prelude.{◌≡◌, IfOk};
ghost use Rattle.serde_json.specs.View.{view};
ghost use Rattle.feed_values.specs.Messages.{vehicle_position};
ghost use Rattle.feed_values.specs.Views.{vehicle_position_value};
ghost use Rattle.feed_json.specs.Holds.{Holds};
ghost use Rattle.feed_json.specs.Reads.{Reads};
ghost use Rattle.feed_json.specs.Unform.{slots_of};

use crate::json_fault::JsonFault;
use crate::message::{Form, optional_message};
use crate::reading::{
    needed_bits32, optional_bits32, optional_bits64, optional_enum, optional_text, optional_u32,
    optional_u64,
};
use crate::unknown::{UnknownItems, put_unknown, unknown_fields};
use crate::writing::{put_needed_u32, put_optional, put_optional_text, put_u32, put_u64};
use feed_values::{Position, Slots, Unknown, VehiclePosition};
use serde_json::{Map, Value};
use std::alloc::{AllocError, Global};

/// Reads each slot to where it stands, so that nothing is owned where one has a fault.
fn fill(alloc: Global, value: &Value, message: &mut VehiclePosition) -> Result<(), JsonFault>
    ensures read { Reads (λ _. vehicle_position_value message.new) (slots_of vehicle_position vehicle_position (view value.now)) result }
    ensures fits { IfOk result (λ _. Holds vehicle_position vehicle_position (vehicle_position_value message.new)) }
{
    message.trip = optional_message(alloc, value, "trip")?;
    message.position = optional_message(alloc, value, "position")?;
    message.current_stop_sequence = optional_u32(alloc, value, "current_stop_sequence")?;
    message.current_status = optional_enum(alloc, value, "current_status", 0, 2)?;
    message.timestamp = optional_u64(alloc, value, "timestamp")?;
    message.congestion_level = optional_enum(alloc, value, "congestion_level", 0, 4)?;
    message.stop_id = optional_text(alloc, value, "stop_id")?;
    message.vehicle = optional_message(alloc, value, "vehicle")?;
    message.occupancy_status = optional_enum(alloc, value, "occupancy_status", 0, 6)?;
    message.unknown = unknown_fields::<VehiclePosition>(alloc, value)?;
    Ok(())
}

impl UnknownItems for VehiclePosition {
    fn is_item(field: &Unknown) -> bool {
        !VehiclePosition::takes(field)
    }
}

impl Form for VehiclePosition {
    fn names() -> &'static [&'static str] {
        &[
            "trip",
            "position",
            "current_stop_sequence",
            "current_status",
            "timestamp",
            "congestion_level",
            "stop_id",
            "vehicle",
            "occupancy_status",
            "unknown",
        ]
    }

    fn read(alloc: Global, value: &Value) -> Result<VehiclePosition, JsonFault> {
        let mut message = Box::new(alloc, VehiclePosition::blank(alloc)).map_err(AllocError::from)?;
        fill(alloc, value, &mut message)?;
        Ok(Box::into_inner(message))
    }

    fn put(&self, alloc: Global, members: &mut Map<String, Value>) -> Result<(), AllocError> {
        put_optional(alloc, members, "trip", &self.trip)?;
        put_optional(alloc, members, "position", &self.position)?;
        put_u32(
            alloc,
            members,
            "current_stop_sequence",
            self.current_stop_sequence,
        )?;
        put_u32(alloc, members, "current_status", self.current_status)?;
        put_u64(alloc, members, "timestamp", self.timestamp)?;
        put_u32(alloc, members, "congestion_level", self.congestion_level)?;
        put_optional_text(alloc, members, "stop_id", &self.stop_id)?;
        put_optional(alloc, members, "vehicle", &self.vehicle)?;
        put_u32(alloc, members, "occupancy_status", self.occupancy_status)?;
        put_unknown(alloc, members, &self.unknown)
    }
}

impl UnknownItems for Position {
    fn is_item(field: &Unknown) -> bool {
        !Position::takes(field)
    }
}

impl Form for Position {
    fn names() -> &'static [&'static str] {
        &[
            "latitude",
            "longitude",
            "bearing",
            "odometer",
            "speed",
            "unknown",
        ]
    }

    fn read(alloc: Global, value: &Value) -> Result<Position, JsonFault> {
        Ok(Position {
            latitude: needed_bits32(alloc, value, "latitude")?,
            longitude: needed_bits32(alloc, value, "longitude")?,
            bearing: optional_bits32(alloc, value, "bearing")?,
            odometer: optional_bits64(alloc, value, "odometer")?,
            speed: optional_bits32(alloc, value, "speed")?,
            unknown: unknown_fields::<Position>(alloc, value)?,
        })
    }

    fn put(&self, alloc: Global, members: &mut Map<String, Value>) -> Result<(), AllocError> {
        put_needed_u32(alloc, members, "latitude", self.latitude)?;
        put_needed_u32(alloc, members, "longitude", self.longitude)?;
        put_u32(alloc, members, "bearing", self.bearing)?;
        put_u64(alloc, members, "odometer", self.odometer)?;
        put_u32(alloc, members, "speed", self.speed)?;
        put_unknown(alloc, members, &self.unknown)
    }
}

//! Vehicle positions and what they hold, as kinds of message.
ghost use Rattle.std.proofs.Common.{rules};
ghost use Rattle.feed_codec.specs.Refusal.{payload_fault};
ghost use Rattle.feed_values.specs.Messages.{vehicle_position, position};
ghost use Rattle.feed_values.specs.Views.{vehicle_position_value, position_value};

use crate::checking::{Checked, check_message, check_text};
use crate::message::{Message, merge_optional};
use crate::refusal::Refusal;
use crate::stopped::Stopped;
use crate::taking::{
    take_bits32, take_bits64, take_enum, take_required_bits32, take_text, take_u32, take_u64,
};
use feed_values::{Items, Position, TripDescriptor, Unknown, VehicleDescriptor, VehiclePosition};
use rt_wire::{Fields, RawField, WireFault};
use std::alloc::{AllocError, Global};

impl Checked for VehiclePosition {
    ghost wrong = { payload_fault vehicle_position };

    #[tactic(auto, unfolding(crate::specs::Refusal::first_fault))]
    fn check_slot(number: u32, payload: &[u8]) -> Result<(), Refusal> {
        match number {
            1 => check_message::<TripDescriptor>(payload),
            2 => check_message::<Position>(payload),
            7 => check_text(payload),
            8 => check_message::<VehicleDescriptor>(payload),
            _ => Ok(()),
        }
    }
}

impl Message for VehiclePosition {
    ghost schema = { vehicle_position };

    ghost value = { vehicle_position_value };

    fn empty(alloc: Global) -> VehiclePosition {
        VehiclePosition::blank(alloc)
    }

    #[tactic(auto, unfolding(crate::specs::Merging::with_fields))]
    fn merge_slot(&mut self, alloc: Global, field: &RawField<'_>) -> Result<bool, Stopped> {
        match field.number {
            1 => merge_optional(alloc, &mut self.trip, &field.value),
            2 => merge_optional(alloc, &mut self.position, &field.value),
            3 => Ok(take_u32(&mut self.current_stop_sequence, &field.value)),
            4 => Ok(take_enum(&mut self.current_status, &field.value, 0, 2)),
            5 => Ok(take_u64(&mut self.timestamp, &field.value)),
            6 => Ok(take_enum(&mut self.congestion_level, &field.value, 0, 4)),
            7 => take_text(alloc, &mut self.stop_id, &field.value),
            8 => merge_optional(alloc, &mut self.vehicle, &field.value),
            9 => Ok(take_enum(&mut self.occupancy_status, &field.value, 0, 6)),
            _ => Ok(false),
        }
    }

    fn keep(&mut self, field: Unknown) -> Result<(), AllocError> {
        Ok(self.unknown.push(field)?)
    }

    ghost rises = { Prim.search rules };
}

impl Checked for Position {
    ghost wrong = { payload_fault position };

    fn check_slot(_number: u32, _payload: &[u8]) -> Result<(), Refusal> {
        Ok(())
    }
}

impl Message for Position {
    ghost schema = { position };

    ghost value = { position_value };

    fn empty(alloc: Global) -> Position {
        Position {
            latitude: 0,
            longitude: 0,
            bearing: None,
            odometer: None,
            speed: None,
            unknown: Items::new(alloc),
        }
    }

    /// Its fields are of four bytes, but for the odometer.
    #[inline(always)]
    fn next_field<'a>(fields: &mut Fields<'a>) -> Option<Result<RawField<'a>, WireFault>> {
        fields.next_fixed32()
    }

    fn merge_slot(&mut self, _alloc: Global, field: &RawField<'_>) -> Result<bool, Stopped> {
        match field.number {
            1 => Ok(take_required_bits32(&mut self.latitude, &field.value)),
            2 => Ok(take_required_bits32(&mut self.longitude, &field.value)),
            3 => Ok(take_bits32(&mut self.bearing, &field.value)),
            4 => Ok(take_bits64(&mut self.odometer, &field.value)),
            5 => Ok(take_bits32(&mut self.speed, &field.value)),
            _ => Ok(false),
        }
    }

    fn keep(&mut self, field: Unknown) -> Result<(), AllocError> {
        Ok(self.unknown.push(field)?)
    }

    ghost rises = { Prim.search rules };
}

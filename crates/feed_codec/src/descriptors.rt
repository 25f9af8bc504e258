//! Descriptors of trips and vehicles, as kinds of message.
ghost use Rattle.std.proofs.Common.{rules};
ghost use Rattle.feed_codec.specs.Refusal.{payload_fault};
ghost use Rattle.feed_values.specs.Messages.{trip_descriptor, vehicle_descriptor};
ghost use Rattle.feed_values.specs.Views.{trip_descriptor_value, vehicle_descriptor_value};

use crate::checking::{Checked, check_text};
use crate::message::Message;
use crate::refusal::Refusal;
use crate::stopped::Stopped;
use crate::taking::{take_enum_or, take_text, take_u32};
use feed_values::{Blank, Items, TripDescriptor, Unknown, VehicleDescriptor};
use rt_wire::RawField;
use std::alloc::{AllocError, Global};

impl Checked for TripDescriptor {
    ghost wrong = { payload_fault trip_descriptor };

    fn check_slot(number: u32, payload: &[u8]) -> Result<(), Refusal> {
        match number {
            1 | 2 | 3 | 5 => check_text(payload),
            _ => Ok(()),
        }
    }
}

impl Message for TripDescriptor {
    ghost schema = { trip_descriptor };

    ghost value = { trip_descriptor_value };

    fn empty(alloc: Global) -> TripDescriptor {
        TripDescriptor::blank(alloc)
    }

    fn merge_slot(&mut self, alloc: Global, field: &RawField<'_>) -> Result<bool, Stopped> {
        match field.number {
            1 => take_text(alloc, &mut self.trip_id, &field.value),
            2 => take_text(alloc, &mut self.start_time, &field.value),
            3 => take_text(alloc, &mut self.start_date, &field.value),
            4 => Ok(take_enum_or(&mut self.schedule_relationship, &field.value, 0, 3, 6)),
            5 => take_text(alloc, &mut self.route_id, &field.value),
            6 => Ok(take_u32(&mut self.direction_id, &field.value)),
            _ => Ok(false),
        }
    }

    fn keep(&mut self, field: Unknown) -> Result<(), AllocError> {
        Ok(self.unknown.push(field)?)
    }

    ghost rises = { Prim.search rules };
}

impl Checked for VehicleDescriptor {
    ghost wrong = { payload_fault vehicle_descriptor };

    fn check_slot(number: u32, payload: &[u8]) -> Result<(), Refusal> {
        match number {
            1 | 2 | 3 => check_text(payload),
            _ => Ok(()),
        }
    }
}

impl Message for VehicleDescriptor {
    ghost schema = { vehicle_descriptor };

    ghost value = { vehicle_descriptor_value };

    fn empty(alloc: Global) -> VehicleDescriptor {
        VehicleDescriptor {
            id: None,
            label: None,
            license_plate: None,
            unknown: Items::new(alloc),
        }
    }

    fn merge_slot(&mut self, alloc: Global, field: &RawField<'_>) -> Result<bool, Stopped> {
        match field.number {
            1 => take_text(alloc, &mut self.id, &field.value),
            2 => take_text(alloc, &mut self.label, &field.value),
            3 => take_text(alloc, &mut self.license_plate, &field.value),
            _ => Ok(false),
        }
    }

    fn keep(&mut self, field: Unknown) -> Result<(), AllocError> {
        Ok(self.unknown.push(field)?)
    }

    ghost rises = { Prim.search rules };
}

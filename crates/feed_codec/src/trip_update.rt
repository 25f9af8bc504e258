//! Trip updates and what they hold, as kinds of message.
ghost use Rattle.std.proofs.Common.{rules};
ghost use Rattle.feed_codec.specs.Refusal.{payload_fault};
ghost use Rattle.feed_values.specs.Messages.{trip_update, stop_time_update, stop_time_event};
ghost use Rattle.feed_values.specs.Views.{trip_update_value, stop_time_update_value, stop_time_event_value};

use crate::checking::{Checked, check_message, check_text};
use crate::message::{Message, merge_apart, merge_optional, merge_required, push_repeated};
use crate::refusal::Refusal;
use crate::room::room_for;
use crate::stopped::Stopped;
use crate::taking::{take_enum, take_i32, take_i64, take_text, take_u32, take_u64};
use feed_values::{
    Items, StopTimeEvent, StopTimeProperties, StopTimeUpdate, TripDescriptor, TripProperties,
    TripUpdate, Unknown, VehicleDescriptor,
};
use rt_wire::RawField;
use std::alloc::{AllocError, Global};

impl Checked for TripUpdate {
    ghost wrong = { payload_fault trip_update };

    #[tactic(auto, unfolding(crate::specs::Refusal::first_fault))]
    fn check_slot(number: u32, payload: &[u8]) -> Result<(), Refusal> {
        match number {
            1 => check_message::<TripDescriptor>(payload),
            2 => check_message::<StopTimeUpdate>(payload),
            3 => check_message::<VehicleDescriptor>(payload),
            6 => check_message::<TripProperties>(payload),
            _ => Ok(()),
        }
    }
}

impl Message for TripUpdate {
    ghost schema = { trip_update };

    ghost value = { trip_update_value };

    fn empty(alloc: Global) -> TripUpdate {
        TripUpdate::blank(alloc)
    }

    fn with_room(alloc: Global, payload: &[u8]) -> Result<TripUpdate, AllocError> {
        let mut message = TripUpdate::empty(alloc);
        message.stop_time_update = room_for(alloc, payload, 2)?;
        Ok(message)
    }

    #[tactic(auto, unfolding(crate::specs::Merging::with_fields))]
    fn merge_slot(&mut self, alloc: Global, field: &RawField<'_>) -> Result<bool, Stopped> {
        match field.number {
            1 => merge_required(alloc, &mut self.trip, &field.value),
            2 => push_repeated(alloc, &mut self.stop_time_update, &field.value),
            3 => merge_optional(alloc, &mut self.vehicle, &field.value),
            4 => Ok(take_u64(&mut self.timestamp, &field.value)),
            5 => Ok(take_i32(&mut self.delay, &field.value)),
            6 => merge_apart(alloc, &mut self.trip_properties, &field.value),
            _ => Ok(false),
        }
    }

    fn keep(&mut self, field: Unknown) -> Result<(), AllocError> {
        Ok(self.unknown.push(field)?)
    }

    ghost rises = { Prim.search rules };
}

impl Checked for StopTimeUpdate {
    ghost wrong = { payload_fault stop_time_update };

    #[tactic(auto, unfolding(crate::specs::Refusal::first_fault))]
    fn check_slot(number: u32, payload: &[u8]) -> Result<(), Refusal> {
        match number {
            2 | 3 => check_message::<StopTimeEvent>(payload),
            4 => check_text(payload),
            6 => check_message::<StopTimeProperties>(payload),
            _ => Ok(()),
        }
    }
}

impl Message for StopTimeUpdate {
    ghost schema = { stop_time_update };

    ghost value = { stop_time_update_value };

    fn empty(alloc: Global) -> StopTimeUpdate {
        StopTimeUpdate::blank(alloc)
    }

    #[tactic(auto, unfolding(crate::specs::Merging::with_fields))]
    fn merge_slot(&mut self, alloc: Global, field: &RawField<'_>) -> Result<bool, Stopped> {
        match field.number {
            1 => Ok(take_u32(&mut self.stop_sequence, &field.value)),
            2 => merge_optional(alloc, &mut self.arrival, &field.value),
            3 => merge_optional(alloc, &mut self.departure, &field.value),
            4 => take_text(alloc, &mut self.stop_id, &field.value),
            5 => Ok(take_enum(&mut self.schedule_relationship, &field.value, 0, 2)),
            6 => merge_apart(alloc, &mut self.stop_time_properties, &field.value),
            _ => Ok(false),
        }
    }

    fn keep(&mut self, field: Unknown) -> Result<(), AllocError> {
        Ok(self.unknown.push(field)?)
    }

    ghost rises = { Prim.search rules };
}

impl Checked for StopTimeEvent {
    ghost wrong = { payload_fault stop_time_event };

    fn check_slot(_number: u32, _payload: &[u8]) -> Result<(), Refusal> {
        Ok(())
    }
}

impl Message for StopTimeEvent {
    ghost schema = { stop_time_event };

    ghost value = { stop_time_event_value };

    fn empty(alloc: Global) -> StopTimeEvent {
        StopTimeEvent {
            delay: None,
            time: None,
            uncertainty: None,
            unknown: Items::new(alloc),
        }
    }

    fn merge_slot(&mut self, _alloc: Global, field: &RawField<'_>) -> Result<bool, Stopped> {
        match field.number {
            1 => Ok(take_i32(&mut self.delay, &field.value)),
            2 => Ok(take_i64(&mut self.time, &field.value)),
            3 => Ok(take_i32(&mut self.uncertainty, &field.value)),
            _ => Ok(false),
        }
    }

    fn keep(&mut self, field: Unknown) -> Result<(), AllocError> {
        Ok(self.unknown.push(field)?)
    }

    ghost rises = { Prim.search rules };
}

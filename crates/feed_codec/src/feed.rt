//! The snapshot, its header and its entities, as kinds of message.
ghost use Rattle.std.proofs.Common.{rules};
ghost use Rattle.std.specs.Prelude.{IfOk, map};
ghost use Rattle.rt_wire.specs.Placed.{value_of};
ghost use Rattle.feed_codec.specs.Merging.{merged_repeated, with_fields, NothingWrong, TakenOr};
ghost use Rattle.feed_codec.specs.Refusal.{entity_fault, payload_fault};
ghost use Rattle.feed_values.specs.Schema.{blank};
ghost use Rattle.feed_values.specs.Messages.{feed_message, feed_header, entity};
ghost use Rattle.feed_values.specs.Views.{feed_message_value, feed_header_value, entity_value};

use crate::checking::{Checked, check_message, check_text};
use crate::message::{Message, merge_apart, merge_required, push_repeated};
use crate::missing::missing_in_entity;
use crate::refusal::Refusal;
use crate::room::room_for;
use crate::stopped::Stopped;
use crate::taking::{take_bool, take_enum, take_required_text, take_text, take_u64};
use feed_values::{
    Alert, Entity, FeedHeader, FeedMessage, Items, Text, TripUpdate, Unknown, VehiclePosition,
};
use rt_wire::{RawField, RawValue};
use std::alloc::{AllocError, Global};

/// Takes the fields of a payload into a new entity. It is stopped where the entity lacks a required slot.
#[tactic(auto, unfolding(crate::specs::Refusal::entity_fault, crate::specs::Refusal::first_fault))]
fn push_entity(
    alloc: Global,
    held: &mut Items<Entity>,
    value: &RawValue<'_>,
) -> Result<bool, Stopped>
    ensures value { TakenOr (merged_repeated (with_fields entity) (blank entity) (value_of value.now) (map entity_value held.old))
        (map entity_value held.old) (map entity_value held.new) result }
    ensures fine { IfOk result (λ _. NothingWrong entity_fault (value_of value.now)) }
{
    let RawValue::Len(payload) = *value else {
        return Ok(false);
    };
    if missing_in_entity(payload).is_some() {
        return Err(Stopped);
    }
    push_repeated(alloc, held, value)
}

impl Message for FeedMessage {
    ghost schema = { feed_message };

    ghost value = { feed_message_value };

    fn empty(alloc: Global) -> FeedMessage {
        FeedMessage {
            header: FeedHeader::empty(alloc),
            entity: Items::new(alloc),
            unknown: Items::new(alloc),
        }
    }

    fn with_room(alloc: Global, payload: &[u8]) -> Result<FeedMessage, AllocError> {
        let mut message = FeedMessage::empty(alloc);
        message.entity = room_for(alloc, payload, 2)?;
        Ok(message)
    }

    #[tactic(auto, unfolding(crate::specs::Merging::with_fields, crate::specs::Refusal::first_fault))]
    fn merge_slot(&mut self, alloc: Global, field: &RawField<'_>) -> Result<bool, Stopped> {
        match field.number {
            1 => merge_required(alloc, &mut self.header, &field.value),
            2 => push_entity(alloc, &mut self.entity, &field.value),
            _ => Ok(false),
        }
    }

    fn keep(&mut self, field: Unknown) -> Result<(), AllocError> {
        Ok(self.unknown.push(field)?)
    }

    ghost rises = { Prim.search rules };
}

impl Checked for FeedHeader {
    ghost wrong = { payload_fault feed_header };

    fn check_slot(number: u32, payload: &[u8]) -> Result<(), Refusal> {
        match number {
            1 | 4 => check_text(payload),
            _ => Ok(()),
        }
    }
}

impl Message for FeedHeader {
    ghost schema = { feed_header };

    ghost value = { feed_header_value };

    fn empty(alloc: Global) -> FeedHeader {
        FeedHeader {
            gtfs_realtime_version: Text::new(alloc),
            incrementality: None,
            timestamp: None,
            feed_version: None,
            unknown: Items::new(alloc),
        }
    }

    fn merge_slot(&mut self, alloc: Global, field: &RawField<'_>) -> Result<bool, Stopped> {
        match field.number {
            1 => take_required_text(alloc, &mut self.gtfs_realtime_version, &field.value),
            2 => Ok(take_enum(&mut self.incrementality, &field.value, 0, 1)),
            3 => Ok(take_u64(&mut self.timestamp, &field.value)),
            4 => take_text(alloc, &mut self.feed_version, &field.value),
            _ => Ok(false),
        }
    }

    fn keep(&mut self, field: Unknown) -> Result<(), AllocError> {
        Ok(self.unknown.push(field)?)
    }

    ghost rises = { Prim.search rules };
}

impl Checked for Entity {
    ghost wrong = { payload_fault entity };

    #[tactic(auto, unfolding(crate::specs::Refusal::first_fault))]
    fn check_slot(number: u32, payload: &[u8]) -> Result<(), Refusal> {
        match number {
            1 => check_text(payload),
            3 => check_message::<TripUpdate>(payload),
            4 => check_message::<VehiclePosition>(payload),
            5 => check_message::<Alert>(payload),
            _ => Ok(()),
        }
    }
}

impl Message for Entity {
    ghost schema = { entity };

    ghost value = { entity_value };

    fn empty(alloc: Global) -> Entity {
        Entity {
            id: Text::new(alloc),
            is_deleted: None,
            trip_update: None,
            vehicle: None,
            alert: None,
            unknown: Items::new(alloc),
        }
    }

    #[tactic(auto, unfolding(crate::specs::Merging::with_fields))]
    fn merge_slot(&mut self, alloc: Global, field: &RawField<'_>) -> Result<bool, Stopped> {
        match field.number {
            1 => take_required_text(alloc, &mut self.id, &field.value),
            2 => Ok(take_bool(&mut self.is_deleted, &field.value)),
            3 => merge_apart(alloc, &mut self.trip_update, &field.value),
            4 => merge_apart(alloc, &mut self.vehicle, &field.value),
            5 => merge_apart(alloc, &mut self.alert, &field.value),
            _ => Ok(false),
        }
    }

    fn keep(&mut self, field: Unknown) -> Result<(), AllocError> {
        Ok(self.unknown.push(field)?)
    }

    ghost rises = { Prim.search rules };
}

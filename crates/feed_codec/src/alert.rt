//! Alerts and what they hold, as kinds of message.
ghost use Rattle.std.proofs.Common.{rules};
ghost use Rattle.feed_codec.specs.Refusal.{payload_fault};
ghost use Rattle.feed_values.specs.Messages.{alert, time_range, entity_selector};
ghost use Rattle.feed_values.specs.Views.{alert_value, time_range_value, entity_selector_value};

use crate::checking::{Checked, check_message, check_text};
use crate::message::{Message, merge_boxed, merge_optional, push_boxed, push_repeated};
use crate::refusal::Refusal;
use crate::room::room_for;
use crate::stopped::Stopped;
use crate::taking::{take_enum, take_i32, take_text, take_u64};
use feed_values::{
    Alert, Blank, EntitySelector, Items, TimeRange, TranslatedString, TripDescriptor, Unknown,
};
use rt_wire::RawField;
use std::alloc::{AllocError, Global};

impl Checked for Alert {
    ghost wrong = { payload_fault alert };

    #[tactic(auto, unfolding(crate::specs::Refusal::first_fault))]
    fn check_slot(number: u32, payload: &[u8]) -> Result<(), Refusal> {
        match number {
            1 => check_message::<TimeRange>(payload),
            5 => check_message::<EntitySelector>(payload),
            8 | 10 | 11 => check_message::<TranslatedString>(payload),
            _ => Ok(()),
        }
    }
}

impl Message for Alert {
    ghost schema = { alert };

    ghost value = { alert_value };

    fn empty(alloc: Global) -> Alert {
        Alert {
            active_period: Items::new(alloc),
            informed_entity: Items::new(alloc),
            cause: None,
            effect: None,
            url: None,
            header_text: None,
            description_text: None,
            unknown: Items::new(alloc),
        }
    }

    fn with_room(alloc: Global, payload: &[u8]) -> Result<Alert, AllocError> {
        let active_period = room_for(alloc, payload, 1)?;
        let informed_entity = room_for(alloc, payload, 5)?;
        let mut message = Alert::empty(alloc);
        message.active_period = active_period;
        message.informed_entity = informed_entity;
        Ok(message)
    }

    #[tactic(auto, unfolding(crate::specs::Merging::with_fields))]
    fn merge_slot(&mut self, alloc: Global, field: &RawField<'_>) -> Result<bool, Stopped> {
        match field.number {
            1 => push_repeated(alloc, &mut self.active_period, &field.value),
            5 => push_boxed(alloc, &mut self.informed_entity, &field.value),
            6 => Ok(take_enum(&mut self.cause, &field.value, 1, 12)),
            7 => Ok(take_enum(&mut self.effect, &field.value, 1, 9)),
            8 => merge_optional(alloc, &mut self.url, &field.value),
            10 => merge_optional(alloc, &mut self.header_text, &field.value),
            11 => merge_optional(alloc, &mut self.description_text, &field.value),
            _ => Ok(false),
        }
    }

    fn keep(&mut self, field: Unknown) -> Result<(), AllocError> {
        Ok(self.unknown.push(field)?)
    }

    ghost rises = { Prim.search rules };
}

impl Checked for TimeRange {
    ghost wrong = { payload_fault time_range };

    fn check_slot(_number: u32, _payload: &[u8]) -> Result<(), Refusal> {
        Ok(())
    }
}

impl Message for TimeRange {
    ghost schema = { time_range };

    ghost value = { time_range_value };

    fn empty(alloc: Global) -> TimeRange {
        TimeRange {
            start: None,
            end: None,
            unknown: Items::new(alloc),
        }
    }

    fn merge_slot(&mut self, _alloc: Global, field: &RawField<'_>) -> Result<bool, Stopped> {
        match field.number {
            1 => Ok(take_u64(&mut self.start, &field.value)),
            2 => Ok(take_u64(&mut self.end, &field.value)),
            _ => Ok(false),
        }
    }

    fn keep(&mut self, field: Unknown) -> Result<(), AllocError> {
        Ok(self.unknown.push(field)?)
    }

    ghost rises = { Prim.search rules };
}

impl Checked for EntitySelector {
    ghost wrong = { payload_fault entity_selector };

    #[tactic(auto, unfolding(crate::specs::Refusal::first_fault))]
    fn check_slot(number: u32, payload: &[u8]) -> Result<(), Refusal> {
        match number {
            1 | 2 | 5 => check_text(payload),
            4 => check_message::<TripDescriptor>(payload),
            _ => Ok(()),
        }
    }
}

impl Message for EntitySelector {
    ghost schema = { entity_selector };

    ghost value = { entity_selector_value };

    fn empty(alloc: Global) -> EntitySelector {
        EntitySelector::blank(alloc)
    }

    #[tactic(auto, unfolding(crate::specs::Merging::with_fields))]
    fn merge_slot(&mut self, alloc: Global, field: &RawField<'_>) -> Result<bool, Stopped> {
        match field.number {
            1 => take_text(alloc, &mut self.agency_id, &field.value),
            2 => take_text(alloc, &mut self.route_id, &field.value),
            3 => Ok(take_i32(&mut self.route_type, &field.value)),
            4 => merge_boxed(alloc, &mut self.trip, &field.value),
            5 => take_text(alloc, &mut self.stop_id, &field.value),
            _ => Ok(false),
        }
    }

    fn keep(&mut self, field: Unknown) -> Result<(), AllocError> {
        Ok(self.unknown.push(field)?)
    }

    ghost rises = { Prim.search rules };
}

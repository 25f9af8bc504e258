//! Texts in several languages, as kinds of message.
ghost use Rattle.std.proofs.Common.{rules};
ghost use Rattle.feed_codec.specs.Refusal.{payload_fault};
ghost use Rattle.feed_values.specs.Messages.{translated_string, translation};
ghost use Rattle.feed_values.specs.Views.{translated_string_value, translation_value};

use crate::checking::{Checked, check_message, check_text};
use crate::message::{Message, push_repeated};
use crate::refusal::Refusal;
use crate::room::room_for;
use crate::stopped::Stopped;
use crate::taking::{take_required_text, take_text};
use feed_values::{Items, Text, TranslatedString, Translation, Unknown};
use rt_wire::RawField;
use std::alloc::{AllocError, Global};

impl Checked for TranslatedString {
    ghost wrong = { payload_fault translated_string };

    #[tactic(auto, unfolding(crate::specs::Refusal::first_fault))]
    fn check_slot(number: u32, payload: &[u8]) -> Result<(), Refusal> {
        match number {
            1 => check_message::<Translation>(payload),
            _ => Ok(()),
        }
    }
}

impl Message for TranslatedString {
    ghost schema = { translated_string };

    ghost value = { translated_string_value };

    fn empty(alloc: Global) -> TranslatedString {
        TranslatedString {
            translation: Items::new(alloc),
            unknown: Items::new(alloc),
        }
    }

    fn with_room(alloc: Global, payload: &[u8]) -> Result<TranslatedString, AllocError> {
        let mut message = TranslatedString::empty(alloc);
        message.translation = room_for(alloc, payload, 1)?;
        Ok(message)
    }

    #[tactic(auto, unfolding(crate::specs::Merging::with_fields))]
    fn merge_slot(&mut self, alloc: Global, field: &RawField<'_>) -> Result<bool, Stopped> {
        match field.number {
            1 => push_repeated(alloc, &mut self.translation, &field.value),
            _ => Ok(false),
        }
    }

    fn keep(&mut self, field: Unknown) -> Result<(), AllocError> {
        Ok(self.unknown.push(field)?)
    }

    ghost rises = { Prim.search rules };
}

impl Checked for Translation {
    ghost wrong = { payload_fault translation };

    fn check_slot(number: u32, payload: &[u8]) -> Result<(), Refusal> {
        match number {
            1 | 2 => check_text(payload),
            _ => Ok(()),
        }
    }
}

impl Message for Translation {
    ghost schema = { translation };

    ghost value = { translation_value };

    fn empty(alloc: Global) -> Translation {
        Translation {
            text: Text::new(alloc),
            language: None,
            unknown: Items::new(alloc),
        }
    }

    fn merge_slot(&mut self, alloc: Global, field: &RawField<'_>) -> Result<bool, Stopped> {
        match field.number {
            1 => take_required_text(alloc, &mut self.text, &field.value),
            2 => take_text(alloc, &mut self.language, &field.value),
            _ => Ok(false),
        }
    }

    fn keep(&mut self, field: Unknown) -> Result<(), AllocError> {
        Ok(self.unknown.push(field)?)
    }

    ghost rises = { Prim.search rules };
}

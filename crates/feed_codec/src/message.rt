//! Decoding of any message, field by field.
ghost use Rattle.std.specs.Prelude.{◌≡◌, ◌++◌, ◌∷◌, [], OnOk, IfOk, map, unwrap_or, MatchOption};
ghost use Rattle.std.specs.Option.{option_map};
ghost use Rattle.rt_wire.specs.Placed.{handed_out, placed_field, placed_fields, value_of};
ghost use Rattle.feed_values.specs.Schema.{Schema, Value, Optional, Rises, blank};
ghost use Rattle.feed_values.specs.Meaning.{fields, meaning};
ghost use Rattle.feed_values.specs.Views.{unknown_field};
ghost use Rattle.feed_codec.specs.Merging.{required, kept, merged, merged_message, merged_repeated, with_field, with_fields};
ghost use Rattle.feed_codec.specs.Merging.{NothingWrong, TakenOr};
ghost use Rattle.feed_codec.specs.Refusal.{first_in, in_payload};

use crate::checking::Checked;
use crate::stopped::Stopped;
use crate::unknown::unknown_of;
use feed_values::{Apart, Blank, Boxed, Items, Unknown};
use rt_wire::{Fields, RawField, RawValue, WireFault};
use std::alloc::{AllocError, Global};

/// A kind of message: its slots, and how a value of it takes its fields one by one.
pub trait Message: Checked + Drop {
    ghost schema: { Schema };

    ghost value: { Self → Value schema };

    /// A message that holds nothing.
    fn empty(alloc: Global) -> Self
        ensures { value result ≡ blank schema };

    /// A message that holds nothing, with room for each message that a payload gives to one of its lists.
    fn with_room(alloc: Global, _payload: &[u8]) -> Result<Self, AllocError>
        ensures { IfOk result (λ message. value message ≡ blank schema) }
    {
        Ok(Self::empty(alloc))
    }

    /// The next field of such a message, or the fault that stands where it is due.
    #[inline(always)]
    fn next_field<'a>(fields: &mut Fields<'a>) -> Option<Result<RawField<'a>, WireFault>>
        ensures next { MatchOption result ((fields.old.left ≡ []) × (fields.new.left ≡ [])) (λ r. fields.old.left ≡ handed_out r ∷ fields.new.left) }
    {
        fields.next()
    }

    /// Takes a field that is of a slot, and says whether it was. It is stopped where something is wrong inside the field.
    fn merge_slot(&mut self, alloc: Global, field: &RawField<'_>) -> Result<bool, Stopped>
        ensures value { TakenOr (merged schema (placed_field field.now).field (value self.old)) (value self.old) (value self.new) result }
        ensures fine { IfOk result (λ _. NothingWrong (Self.wrong field.now.number) (value_of field.now.value)) };

    /// Keeps a field that is of no slot.
    fn keep(&mut self, field: Unknown) -> Result<(), AllocError>
        ensures { OnOk result (value self.new ≡ kept schema (unknown_field field) (value self.old)) };

    /// The slots stand in rising order of their numbers.
    ghost rises: { Rises 0 schema };
}

#[tactic(auto, unfolding(crate::specs::Merging::with_field))]
fn merge_field<M: Message>(
    alloc: Global,
    message: &mut M,
    field: &RawField<'_>,
) -> Result<(), Stopped>
    ensures value { OnOk result (M.value message.new ≡ with_field M.schema (placed_field field.now).field (M.value message.old)) }
    ensures fine { IfOk result (λ _. NothingWrong (M.wrong field.now.number) (value_of field.now.value)) }
{
    if message.merge_slot(alloc, field)? {
        return Ok(());
    }
    Ok(message.keep(unknown_of(alloc, field)?)?)
}

/// Takes every field of a list of bytes, in which nothing is wrong where it isn't stopped.
pub fn merge<M: Message>(alloc: Global, message: &mut M, bytes: &[u8]) -> Result<(), Stopped>
    ensures value { OnOk result (M.value message.new ≡ with_fields M.schema (fields bytes.now) (M.value message.old)) }
    ensures fine { IfOk result (λ _. first_in (in_payload M.wrong) (placed_fields bytes.now) ≡ None) }
{
    let mut fields = Fields::new(bytes);
    while let Some(field) = M::next_field(&mut fields) {
        match field {
            Ok(field) => merge_field(alloc, message, &field)?,
            Err(_) => return Err(Stopped),
        }
    }
    Ok(())
}

/// Takes the fields of a payload into the message that an optional slot holds, or into an empty one.
#[tactic(auto, unfolding(crate::specs::Merging::with_fields))]
pub fn merge_optional<M: Message>(
    alloc: Global,
    held: &mut Option<M>,
    value: &RawValue<'_>,
) -> Result<bool, Stopped>
    ensures value { TakenOr (merged_message Optional (with_fields M.schema) (blank M.schema) (value_of value.now) (option_map M.value held.old))
        (option_map M.value held.old) (option_map M.value held.new) result }
    ensures fine { IfOk result (λ _. NothingWrong (λ p. first_in (in_payload M.wrong) (placed_fields p)) (value_of value.now)) }
{
    let RawValue::Len(payload) = *value else {
        return Ok(false);
    };
    if held.is_none() {
        *held = Some(M::with_room(alloc, payload)?);
    }
    match held {
        Some(message) => merge(alloc, message, payload)?,
        None => unreachable!(),
    }
    Ok(true)
}

/// The message that an optional slot holds, in the box of its place, or an empty one with room for what a payload gives.
fn box_of<M: Message>(
    alloc: Global,
    held: Option<Apart<M>>,
    payload: &[u8],
) -> Result<Box<M>, AllocError>
    ensures { IfOk result (λ message. M.value message.value ≡ unwrap_or (option_map M.value held) (blank M.schema)) }
{
    match held {
        Some(apart) => Ok(apart.into_box()),
        None => Ok(Box::new(alloc, M::with_room(alloc, payload)?)?),
    }
}

/// The same where the message stands apart. It is filled where it stands.
#[tactic(auto, unfolding(crate::specs::Merging::with_fields))]
pub fn merge_apart<M: Message>(
    alloc: Global,
    held: &mut Option<Apart<M>>,
    value: &RawValue<'_>,
) -> Result<bool, Stopped>
    ensures value { TakenOr (merged_message Optional (with_fields M.schema) (blank M.schema) (value_of value.now) (option_map M.value held.old))
        (option_map M.value held.old) (option_map M.value held.new) result }
    ensures fine { IfOk result (λ _. NothingWrong (λ p. first_in (in_payload M.wrong) (placed_fields p)) (value_of value.now)) }
{
    let RawValue::Len(payload) = *value else {
        return Ok(false);
    };
    let mut message = box_of(alloc, held.take(), payload)?;
    merge::<M>(alloc, &mut message, payload)?;
    *held = Some(Apart::of_box(message));
    Ok(true)
}

/// The same where the message is held in a box.
pub fn merge_boxed<M: Message + Blank>(
    alloc: Global,
    held: &mut Option<Boxed<M>>,
    value: &RawValue<'_>,
) -> Result<bool, Stopped>
    ensures value { TakenOr (merged_message Optional (with_fields M.schema) (blank M.schema) (value_of value.now) (option_map M.value held.old))
        (option_map M.value held.old) (option_map M.value held.new) result }
    ensures fine { IfOk result (λ _. NothingWrong (λ p. first_in (in_payload M.wrong) (placed_fields p)) (value_of value.now)) }
{
    let mut message = unboxed(alloc, held.take());
    let taken = merge_optional(alloc, &mut message, value)?;
    *held = boxed(alloc, message)?;
    Ok(taken)
}

fn unboxed<M: Message + Blank>(alloc: Global, held: Option<Boxed<M>>) -> Option<M>
    ensures { result ≡ held }
{
    match held {
        Some(boxed) => Some(boxed.into_inner(alloc)),
        None => None,
    }
}

fn boxed<M: Message + Blank>(
    alloc: Global,
    message: Option<M>,
) -> Result<Option<Boxed<M>>, AllocError>
    ensures { IfOk result (λ held. held ≡ message) }
{
    match message {
        Some(message) => Ok(Some(Boxed::new(alloc, message)?)),
        None => Ok(None),
    }
}

/// Takes the fields of a payload into the message of a required slot.
#[tactic(auto, unfolding(crate::specs::Merging::with_fields))]
pub fn merge_required<M: Message>(
    alloc: Global,
    held: &mut M,
    value: &RawValue<'_>,
) -> Result<bool, Stopped>
    ensures value { TakenOr (merged_message required (with_fields M.schema) (blank M.schema) (value_of value.now) (M.value held.old))
        (M.value held.old) (M.value held.new) result }
    ensures fine { IfOk result (λ _. NothingWrong (λ p. first_in (in_payload M.wrong) (placed_fields p)) (value_of value.now)) }
{
    let RawValue::Len(payload) = *value else {
        return Ok(false);
    };
    merge(alloc, held, payload)?;
    Ok(true)
}

fn append<M: Drop>(held: &mut Items<M>, message: M) -> Result<(), AllocError>
    ensures { OnOk result (held.new ≡ held.old ++ message ∷ []) }
{
    Ok(held.push(message)?)
}

/// Takes the fields of a payload into a new message of a repeated slot.
#[tactic(auto, unfolding(crate::specs::Merging::with_fields))]
pub fn push_repeated<M: Message>(
    alloc: Global,
    held: &mut Items<M>,
    value: &RawValue<'_>,
) -> Result<bool, Stopped>
    ensures value { TakenOr (merged_repeated (with_fields M.schema) (blank M.schema) (value_of value.now) (map M.value held.old))
        (map M.value held.old) (map M.value held.new) result }
    ensures fine { IfOk result (λ _. NothingWrong (λ p. first_in (in_payload M.wrong) (placed_fields p)) (value_of value.now)) }
{
    let RawValue::Len(payload) = *value else {
        return Ok(false);
    };
    let mut message = M::with_room(alloc, payload)?;
    merge(alloc, &mut message, payload)?;
    append(held, message)?;
    Ok(true)
}

/// The same where the messages are held in boxes. A payload that gives nothing takes no memory beside its place.
#[tactic(auto, unfolding(crate::specs::Merging::with_fields))]
pub fn push_boxed<M: Message + Blank>(
    alloc: Global,
    held: &mut Items<Boxed<M>>,
    value: &RawValue<'_>,
) -> Result<bool, Stopped>
    ensures value { TakenOr (merged_repeated (with_fields M.schema) (blank M.schema) (value_of value.now) (map M.value held.old))
        (map M.value held.old) (map M.value held.new) result }
    ensures fine { IfOk result (λ _. NothingWrong (λ p. first_in (in_payload M.wrong) (placed_fields p)) (value_of value.now)) }
{
    let RawValue::Len(payload) = *value else {
        return Ok(false);
    };
    let mut message = M::with_room(alloc, payload)?;
    merge(alloc, &mut message, payload)?;
    append(held, Boxed::new(alloc, message)?)?;
    Ok(true)
}

/// The message that a list of bytes means, in which nothing is wrong where it isn't stopped.
#[tactic(auto, using(crate::proofs::Meanings::taken_all))]
pub fn message_of<M: Message>(alloc: Global, bytes: &[u8]) -> Result<M, Stopped>
    ensures value { IfOk result (λ message. M.value message ≡ meaning M.schema (fields bytes.now)) }
    ensures fine { IfOk result (λ _. first_in (in_payload M.wrong) (placed_fields bytes.now) ≡ None) }
{
    let mut message = M::with_room(alloc, bytes)?;
    merge(alloc, &mut message, bytes)?;
    Ok(message)
}

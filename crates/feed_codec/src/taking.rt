//! Numbers and texts into their slots. Each call says whether the value was of the slot's wire type, and for an enum also
//! one of its numbers; where it wasn't, the slot stays as it was. A text that isn't UTF-8 is stopped at.
//! (Protocol Buffers, Encoding, "Last One Wins"; Language Guide proto2, "Scalar Value Types".)
ghost use Rattle.std.specs.Prelude.{◌≡◌, ◌%◌, ◌^◌, IfOk, IfSome, List, ℕ, pos};
ghost use Rattle.std.specs.Option.{option_map};
ghost use Rattle.feed_values.specs.Schema as schema;
ghost use Rattle.feed_codec.specs.Merging.{required, merged_scalar, merged_text, Took, TakenOr, NothingWrong};
ghost use Rattle.feed_codec.specs.Refusal.{text_fault};
ghost use Rattle.feed_values.specs.Views.{natural, truth};
ghost use Rattle.rt_wire.specs.Placed.{value_of};

use crate::stopped::Stopped;
use feed_values::Text;
use rt_wire::RawValue;
use std::alloc::Global;

fn low_32(n: u64) -> u32
    ensures { result ≡ n % 2 ^ 32 }
{
    (n % (1 << 32)) as u32
}

pub fn take_bool(held: &mut Option<bool>, value: &RawValue<'_>) -> bool
    ensures { Took (merged_scalar schema.Optional schema.Bool (value_of value.now)) (truth held.old) (truth held.new) result }
{
    let RawValue::Varint(n) = *value else {
        return false;
    };
    *held = Some(n != 0);
    true
}

pub fn take_u32(held: &mut Option<u32>, value: &RawValue<'_>) -> bool
    ensures { Took (merged_scalar schema.Optional schema.U32 (value_of value.now)) (natural held.old) (natural held.new) result }
{
    let RawValue::Varint(n) = *value else {
        return false;
    };
    *held = Some(low_32(n));
    true
}

pub fn take_i32(held: &mut Option<i32>, value: &RawValue<'_>) -> bool
    ensures { Took (merged_scalar schema.Optional schema.I32 (value_of value.now)) held.old held.new result }
{
    let RawValue::Varint(n) = *value else {
        return false;
    };
    *held = Some(low_32(n).cast_signed());
    true
}

pub fn take_i64(held: &mut Option<i64>, value: &RawValue<'_>) -> bool
    ensures { Took (merged_scalar schema.Optional schema.I64 (value_of value.now)) held.old held.new result }
{
    let RawValue::Varint(n) = *value else {
        return false;
    };
    *held = Some(n.cast_signed());
    true
}

pub fn take_enum(held: &mut Option<u32>, value: &RawValue<'_>, low: u32, high: u32) -> bool
    ensures { Took (merged_scalar schema.Optional (schema.Enum low high) (value_of value.now))
        (natural held.old) (natural held.new) result }
{
    let RawValue::Varint(n) = *value else {
        return false;
    };
    let n = low_32(n);
    if n < low || n > high {
        return false;
    }
    *held = Some(n);
    true
}

/// The same of an enum that recognises one number more.
pub fn take_enum_or(
    held: &mut Option<u32>,
    value: &RawValue<'_>,
    low: u32,
    high: u32,
    more: u32,
) -> bool
    ensures { Took (merged_scalar schema.Optional (schema.EnumOr low high more) (value_of value.now))
        (natural held.old) (natural held.new) result }
{
    let RawValue::Varint(n) = *value else {
        return false;
    };
    let n = low_32(n);
    if (n < low || n > high) && n != more {
        return false;
    }
    *held = Some(n);
    true
}

/// The text of a payload. It is stopped where it isn't UTF-8.
#[inline(always)]
fn text_of(alloc: Global, payload: &[u8]) -> Result<Text, Stopped>
    ensures value { IfOk result (λ text. text ≡ payload.now) }
    ensures fine { IfOk result (λ _. text_fault payload.now ≡ None) }
{
    match str::from_utf8(payload) {
        Ok(valid) => Ok(Text::of(alloc, valid)?),
        Err(_) => Err(Stopped),
    }
}

pub fn take_text(
    alloc: Global,
    held: &mut Option<Text>,
    value: &RawValue<'_>,
) -> Result<bool, Stopped>
    ensures value { TakenOr (merged_text schema.Optional (value_of value.now)) held.old held.new result }
    ensures fine { IfOk result (λ _. NothingWrong text_fault (value_of value.now)) }
{
    let RawValue::Len(payload) = *value else {
        return Ok(false);
    };
    *held = Some(text_of(alloc, payload)?);
    Ok(true)
}

pub fn take_required_text(
    alloc: Global,
    held: &mut Text,
    value: &RawValue<'_>,
) -> Result<bool, Stopped>
    ensures value { TakenOr (merged_text required (value_of value.now)) held.old held.new result }
    ensures fine { IfOk result (λ _. NothingWrong text_fault (value_of value.now)) }
{
    let RawValue::Len(payload) = *value else {
        return Ok(false);
    };
    *held = text_of(alloc, payload)?;
    Ok(true)
}

pub fn take_u64(held: &mut Option<u64>, value: &RawValue<'_>) -> bool
    ensures { Took (merged_scalar schema.Optional schema.U64 (value_of value.now)) (natural held.old) (natural held.new) result }
{
    let RawValue::Varint(n) = *value else {
        return false;
    };
    *held = Some(n);
    true
}

pub fn take_bits32(held: &mut Option<u32>, value: &RawValue<'_>) -> bool
    ensures { Took (merged_scalar schema.Optional schema.Bits32 (value_of value.now)) (natural held.old) (natural held.new) result }
{
    let RawValue::Fixed32(n) = *value else {
        return false;
    };
    *held = Some(n);
    true
}

pub fn take_bits64(held: &mut Option<u64>, value: &RawValue<'_>) -> bool
    ensures { Took (merged_scalar schema.Optional schema.Bits64 (value_of value.now)) (natural held.old) (natural held.new) result }
{
    let RawValue::Fixed64(n) = *value else {
        return false;
    };
    *held = Some(n);
    true
}

pub fn take_required_bits32(held: &mut u32, value: &RawValue<'_>) -> bool
    ensures { Took (merged_scalar required schema.Bits32 (value_of value.now)) (pos held.old) (pos held.new) result }
{
    let RawValue::Fixed32(n) = *value else {
        return false;
    };
    *held = n;
    true
}

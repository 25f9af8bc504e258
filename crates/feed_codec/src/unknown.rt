//! Fields of no slot, kept on their own.
ghost use Rattle.std.specs.Prelude.{◌≡◌, IfOk};
ghost use Rattle.rt_wire.specs.Placed.{placed_field};
ghost use Rattle.feed_values.specs.Views.{unknown_field};

use feed_values::{Raw, Unknown, UnknownValue};
use rt_wire::{RawField, RawValue};
use std::alloc::{AllocError, Global};

/// A field with memory of its own.
pub fn unknown_of(alloc: Global, field: &RawField<'_>) -> Result<Unknown, AllocError>
    ensures { IfOk result (λ unknown. unknown_field unknown ≡ (placed_field field.now).field) }
{
    let value = match field.value {
        RawValue::Varint(n) => UnknownValue::Varint(n),
        RawValue::Fixed64(n) => UnknownValue::Fixed64(n),
        RawValue::Len(payload) => UnknownValue::Len(Raw::of(alloc, payload)?),
        RawValue::Group(group) => UnknownValue::Group(Raw::of(alloc, group)?),
        RawValue::Fixed32(n) => UnknownValue::Fixed32(n),
    };
    Ok(Unknown {
        number: field.number,
        value,
    })
}

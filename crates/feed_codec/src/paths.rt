//! Whether a field is there, at a path of slots, without taking memory.
ghost use Rattle.std.specs.Prelude.{◌≡◌, [], ◌∷◌, ◌||◌};
ghost use Rattle.rt_wire.specs.Placed.{placed_field};
ghost use Rattle.feed_values.specs.Meaning.{fields};
ghost use Rattle.feed_codec.specs.Paths as paths;

use crate::payloads::payload_of;
use rt_wire::{Fields, RawField, RawValue};

/// Whether a field is a payload of slot `number`.
pub fn is_payload(field: &RawField<'_>, number: u32) -> bool
    ensures { result ≡ paths.is_payload number (placed_field field.now).field }
{
    match field.value {
        RawValue::Len(_) => field.number == number,
        _ => false,
    }
}

/// Whether a field is four bytes of slot `number`.
pub fn is_fixed32(field: &RawField<'_>, number: u32) -> bool
    ensures { result ≡ paths.is_fixed32 number (placed_field field.now).field }
{
    match field.value {
        RawValue::Fixed32(_) => field.number == number,
        _ => false,
    }
}

/// Whether a message has a payload of slot `number`. Behind a fault nothing is read.
pub fn has_payload(bytes: &[u8], number: u32) -> bool
    ensures { result ≡ paths.has_payload number (fields bytes.now) }
{
    let mut fields = Fields::new(bytes);
    while let Some(field) = fields.next() {
        match field {
            Ok(field) => {
                if is_payload(&field, number) {
                    return true;
                }
            }
            Err(_) => return false,
        }
    }
    false
}

/// Whether a field is a message in slot `slot` that has a payload of slot `number`.
pub fn is_around_payload(field: &RawField<'_>, slot: u32, number: u32) -> bool
    ensures { result ≡ paths.holds (slot ∷ []) (paths.is_payload number) ((placed_field field.now).field ∷ []) }
{
    match payload_of(field, slot) {
        Some(message) => has_payload(message, number),
        None => false,
    }
}

/// Whether a message in slot `slot` has a payload of slot `number`. Behind a fault nothing is read.
pub fn has_inner_payload(bytes: &[u8], slot: u32, number: u32) -> bool
    ensures { result ≡ paths.holds (slot ∷ []) (paths.is_payload number) (fields bytes.now) }
{
    let mut fields = Fields::new(bytes);
    while let Some(field) = fields.next() {
        match field {
            Ok(field) => {
                if is_around_payload(&field, slot, number) {
                    return true;
                }
            }
            Err(_) => return false,
        }
    }
    false
}

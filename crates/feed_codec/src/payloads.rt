//! The last payload of a slot, without taking memory.
ghost use Rattle.std.specs.Prelude.{◌≡◌, [], option_copied};
ghost use Rattle.rt_wire.specs.Placed.{placed_field};
ghost use Rattle.feed_values.specs.Meaning.{fields, in_slot, payload_in};
ghost use Rattle.feed_codec.specs.LastPayloads.{last_at};

use rt_wire::{Fields, RawField, RawValue};

/// The payload of a field, where it is of slot `number`.
pub fn payload_of<'a>(field: &RawField<'a>, number: u32) -> Option<&'a [u8]>
    ensures { option_copied result ≡ in_slot payload_in number (placed_field field.now).field }
{
    if field.number != number {
        return None;
    }
    match field.value {
        RawValue::Len(payload) => Some(payload),
        _ => None,
    }
}

/// The last payload of slot `number` of a message, which a text slot holds. Behind a fault nothing is read.
/// (Protocol Buffers, Encoding, "Last One Wins".)
pub fn last_payload<'a>(bytes: &'a [u8], number: u32) -> Option<&'a [u8]>
    ensures { option_copied result ≡ last_at [] number (fields bytes.now) }
{
    let mut last = None;
    let mut fields = Fields::new(bytes);
    while let Some(field) = fields.next() {
        match field {
            Ok(field) => last = payload_of(&field, number).or(last),
            Err(_) => return last,
        }
    }
    last
}

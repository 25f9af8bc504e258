//! Lists that take no more memory than what they are to hold.
ghost use Rattle.std.specs.Prelude.{◌≡◌, ◌<◌, [], IfOk};

use feed_values::Items;
use rt_wire::{RawField, RawValue, read_field};
use std::alloc::{AllocError, Global};

/// An empty list with room for the payloads of a slot among these fields.
pub fn room_for<T>(alloc: Global, bytes: &[u8], number: u32) -> Result<Items<T>, AllocError>
    ensures { IfOk result (λ items. items ≡ []) }
{
    Ok(Items::from_vec(Vec::with_capacity(alloc, count_payloads(bytes, number))?))
}

/// How many payloads of a slot these fields hold. One whose tag takes a byte and its length at most two, as most do, is
/// passed over without reading it.
fn count_payloads(bytes: &[u8], number: u32) -> usize {
    let mut count = 0usize;
    let mut rest = bytes;
    while let [tag, ..] = rest {
        let end = payload_end(rest);
        if is_short_tag(*tag, number) && end <= rest.len() {
            count = count.saturating_add(1);
            rest = &rest[end..];
        } else {
            let Ok(field) = read_field(rest, 0) else {
                return count;
            };
            if is_payload(&field, number) {
                count = count.saturating_add(1);
            }
            rest = &rest[field.end..];
        }
    }
    count
}

/// The place after a payload that stands behind a tag of one byte and a length of at most two, and otherwise one that no
/// bytes have.
fn payload_end(bytes: &[u8]) -> usize
    ensures { 0 < result }
{
    match bytes {
        [_, size, ..] if *size < 128 => 2 + usize::from(*size),
        [_, low, high, ..] if *high < 128 => {
            3 + usize::from(*low % 128) + 128 * usize::from(*high)
        }
        _ => usize::MAX,
    }
}

/// Whether this byte is the tag of a payload of the slot.
fn is_short_tag(tag: u8, number: u32) -> bool {
    tag < 128 && tag % 8 == 2 && u32::from(tag / 8) == number
}

fn is_payload(field: &RawField<'_>, number: u32) -> bool {
    field.number == number && matches!(field.value, RawValue::Len(_))
}

//! What is asked of a header at the snapshot's end.
ghost use Rattle.std.specs.Prelude.{◌≡◌, ◌∷◌, []};
ghost use Rattle.std.specs.Option.{option_or};
ghost use Rattle.rt_wire.specs.Placed.{placed_field};
ghost use Rattle.feed_values.specs.Meaning.{fields, last_of};
ghost use Rattle.feed_values.specs.Accepted.{incrementalities, header_fields};
ghost use Rattle.feed_values.specs.Views.{natural};
ghost use Rattle.feed_codec.specs.Refusal.{Answers, header_fault};

use crate::numbers::{HEADER, INCREMENTALITY, VERSION};
use crate::paths::has_payload;
use crate::refusal::{Reason, Refusal, Required};
use crate::taking::take_enum;
use rt_wire::{Fields, RawField, RawValue};

/// The number of DIFFERENTIAL. (GTFS Realtime Reference 2.0, "Incrementality".)
pub const DIFFERENTIAL: u32 = 1;

/// What is wrong with a header at the snapshot's end: `MissingField(Version)`, or else `Differential`.
///
/// `parts` is the payloads of the header, joined, and `end` the length of the snapshot, which is the place of both faults.
/// A snapshot without any payload of the header is refused with `MissingField(Header)` before this is asked. It takes no
/// memory. (GTFS Realtime Reference 2.0, "FeedHeader"; that DIFFERENTIAL isn't taken is this profile's.)
#[tactic(auto, using(crate::proofs::Headers::header_missing))]
pub fn check_header(parts: &[u8], end: usize) -> Result<(), Refusal>
    ensures { Answers result (header_fault end (fields parts.now)) }
{
    if !has_payload(parts, VERSION) {
        return Err(Refusal::new(end, Reason::MissingField(Required::Version)));
    }
    if last_incrementality(parts) == Some(DIFFERENTIAL) {
        return Err(Refusal::new(end, Reason::Differential));
    }
    Ok(())
}

/// The incrementality that the bytes of a header give.
fn last_incrementality(parts: &[u8]) -> Option<u32>
    ensures { natural result ≡ last_of (incrementalities (fields parts.now)) }
{
    let mut held = None;
    let mut fields = Fields::new(parts);
    while let Some(field) = fields.next() {
        match field {
            Ok(field) => take_incrementality(&mut held, field),
            Err(_) => return held,
        }
    }
    held
}

/// Holds the incrementality that a field of a header gives, where it gives one.
fn take_incrementality(held: &mut Option<u32>, field: RawField<'_>)
    ensures { natural held.new ≡ option_or (last_of (incrementalities ((placed_field field.entry).field ∷ []))) (natural held.old) }
{
    if field.number == INCREMENTALITY {
        take_enum(held, &field.value, 0, 1);
    }
}

/// The incrementality that all header payloads of a snapshot give together.
pub fn snapshot_incrementality(bytes: &[u8]) -> Option<u32>
    ensures { natural result ≡ last_of (incrementalities (header_fields (fields bytes.now))) }
{
    let mut held = None;
    let mut fields = Fields::new(bytes);
    while let Some(field) = fields.next() {
        match field {
            Ok(field) => take_from_header(&mut held, field),
            Err(_) => return held,
        }
    }
    held
}

/// Holds the incrementality that a field of a snapshot gives, where it is of the header and gives one.
fn take_from_header(held: &mut Option<u32>, field: RawField<'_>)
    ensures { natural held.new
        ≡ option_or (last_of (incrementalities (header_fields ((placed_field field.entry).field ∷ [])))) (natural held.old) }
{
    let RawValue::Len(payload) = field.value else {
        return;
    };
    if field.number != HEADER {
        return;
    }
    if let Some(found) = last_incrementality(payload) {
        *held = Some(found);
    }
}

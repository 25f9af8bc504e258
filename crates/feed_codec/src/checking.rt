//! The first fault of a message, without taking memory.
ghost use Rattle.std.specs.Prelude.{◌≡◌, ◌≤◌, ◌<◌, ◌+◌, ◌^◌, ℕ, List, length, Option, IfErr, IsAscii, IsTrue};
ghost use Rattle.std.specs.Char.{is_ascii};
ghost use Rattle.std.specs.List.{list_all};
ghost use Rattle.rt_wire.specs.Placed.{placed_field, placed_fields, PayloadFits};
ghost use Rattle.feed_codec.specs.declared.refusal.Refusal.{Refusal};
ghost use Rattle.feed_codec.specs.Refusal.{Answers, first_in, text_fault, in_payload, shifted, wire_reason};

use crate::refusal::{Reason, Refusal};
use rt_wire::{Fields, RawField, RawValue, WireReason};

fn are_ascii(bytes: &[u8]) -> bool
    ensures { result ≡ list_all is_ascii bytes.now }
{
    bytes.iter().all(|byte| byte.is_ascii())
}

/// Whether all bytes are ASCII. Most texts are short and ASCII, and this shows it in half of the steps that a test of UTF-8
/// takes.
fn is_ascii(text: &[u8]) -> bool
    ensures { IsTrue result → IsAscii text.now }
{
    let mut place = 0;
    while text.len() - place >= 4 {
        if text[place] >= 128
            || text[place + 1] >= 128
            || text[place + 2] >= 128
            || text[place + 3] >= 128
        {
            return false;
        }
        place += 4;
    }
    are_ascii(&text[place..])
}

/// What is wrong with a text.
pub fn check_text(payload: &[u8]) -> Result<(), Refusal>
    ensures answer { Answers result (text_fault payload.now) }
    ensures place { IfErr result (λ r. r.at ≤ length payload.now) }
{
    if is_ascii(payload) {
        return Ok(());
    }
    match str::from_utf8(payload) {
        Ok(_) => Ok(()),
        Err(error) => Err(Refusal::new(error.valid_up_to(), Reason::NotText)),
    }
}

/// A fault of the wire format, as a reason to refuse a snapshot.
pub fn reason_of(reason: WireReason) -> Reason
    ensures { result ≡ wire_reason reason }
{
    match reason {
        WireReason::Truncated => Reason::Truncated,
        WireReason::VarintTooLong => Reason::VarintTooLong,
        WireReason::BadTag => Reason::BadTag,
        WireReason::BadWireType => Reason::BadWireType,
        WireReason::Overrun => Reason::Overrun,
        WireReason::LoneEndGroup => Reason::LoneEndGroup,
        WireReason::GroupMismatch => Reason::GroupMismatch,
        WireReason::TooDeep => Reason::TooDeep,
    }
}

/// The same answer, where the bytes begin at `base`.
pub fn moved(answer: Result<(), Refusal>, base: usize) -> Result<(), Refusal>
    requires { IfErr answer (λ r. base + r.at < 2 ^ 64) }
    ensures ok { answer ≡ Ok tt → result ≡ Ok tt }
    ensures err { IfErr answer (λ r. result ≡ Err (shifted base r)) }
{
    match answer {
        Ok(()) => Ok(()),
        Err(refusal) => Err(Refusal::new(base + refusal.at, refusal.reason)),
    }
}

/// A kind of message, by what is wrong with the payloads of its slots.
pub trait Checked {
    ghost wrong: { ℕ → List ℕ → Option Refusal };

    /// The first fault of a payload of slot `number`, with its place in the payload.
    fn check_slot(number: u32, payload: &[u8]) -> Result<(), Refusal>
        ensures answer { Answers result (wrong number payload.now) }
        ensures place { IfErr result (λ r. r.at ≤ length payload.now) };
}

/// What is wrong inside a field.
fn check_field<M: Checked>(field: RawField<'_>) -> Result<(), Refusal>
    requires { PayloadFits field.body field.end field.value }
    ensures answer { Answers result (in_payload M.wrong (placed_field field.entry)) }
    ensures place { IfErr result (λ r. r.at ≤ field.entry.end) }
{
    let RawValue::Len(payload) = field.value else {
        return Ok(());
    };
    moved(M::check_slot(field.number, payload), field.body)
}

/// The first fault of the bytes of a message: for each field its own, and then what is wrong inside it.
pub fn check_message<M: Checked>(bytes: &[u8]) -> Result<(), Refusal>
    ensures answer { Answers result (first_in (in_payload M.wrong) (placed_fields bytes.now)) }
    ensures place { IfErr result (λ r. r.at ≤ length bytes.now) }
{
    let mut fields = Fields::new(bytes);
    while let Some(field) = fields.next() {
        match field {
            Ok(field) => check_field::<M>(field)?,
            Err(fault) => return Err(Refusal::new(fault.at, reason_of(fault.reason))),
        }
    }
    Ok(())
}

//! The form of a kept snapshot as text, sent piece by piece.
ghost use Rattle.std.specs.Prelude.{◌≡◌, ◌++◌, ◌∷◌, ◌≤◌, [], map, false, None, IfOk, OnOk, OnErr, IsErrOf, MatchOption, string_bytes};
ghost use Rattle.rt_outside.specs.Causes.{Rose};
ghost use Rattle.rt_outside.specs.Sink.{AppendsPrefix};
ghost use Rattle.rt_wire.specs.Placed.{placed_field, placed_fields};
ghost use Rattle.feed_values.specs.Meaning.{is_of_slot};
ghost use Rattle.feed_values.specs.Messages.{feed_message};
ghost use Rattle.feed_values.specs.Snapshot.{entity_of, entity_payloads, header_of};
ghost use Rattle.feed_codec.specs.Refusal.{entity_fault};
ghost use Rattle.feed_json.specs.Pieces.{array_from, end_piece, entity_piece, header_piece, unknown_piece};
ghost use Rattle.run_base.specs.Sending.{SendsText};
ghost use Rattle.run_json.specs.Shown.{unknown_among};

use feed_codec::{decode_entity, decode_header};
use feed_json::{push_end, push_entity, push_header, push_unknown};
use feed_stream::Kept;
use rt_outside::{Sink, Steps};
use rt_wire::{Fields, RawField, RawValue};
use run_base::{Fault, send_piece};
use std::alloc::{AllocError, Global};
use std::marker::Brand;
use std::sync::ledger::{Blank, Ledger};

// Adds a text to what is held back. Where that fills a piece, all of it is written.
fn send<S: Sink>(text: &[u8], held: &mut Vec<u8>, out: &mut S) -> Result<(), Fault>
    ensures sent { OnOk result (SendsText (S.state out.old).written (S.state out.new).written (held.old.items ++ text.now) held.new.items) }
    ensures part { OnErr result (AppendsPrefix (S.state out.old).written (S.state out.new).written (held.old.items ++ text.now)) }
    ensures not_read { IsErrOf result Fault.Read → ⊥ }
    ensures later { (S.state out.old).faults ≤ (S.state out.new).faults }
    ensures write { IsErrOf result Fault.Write → Rose (S.state out.old).faults (S.state out.new).faults }
{
    held.extend_from_slice(text)?;
    send_piece(held, out)?;
    Ok(())
}

// The text of an entity, which is decoded for it.
fn entity_text<L: Ledger>(
    alloc: Global,
    payload: &[u8],
    later: bool,
    steps: &mut Steps<L>,
) -> Result<String, AllocError>
    requires { entity_fault payload.now ≡ None }
    ensures { IfOk result (λ text. string_bytes text ≡ entity_piece later (entity_of payload.now)) }
{
    let entity = decode_entity(alloc, payload, steps)?;
    let mut text = String::new(alloc);
    push_entity(alloc, &mut text, later, &entity)?;
    Ok(text)
}

fn header_text(alloc: Global, kept: &Kept, later: bool) -> Result<String, AllocError>
    ensures { IfOk result (λ text. string_bytes text ≡ header_piece (header_of kept.now) later) }
{
    let header = decode_header(alloc, kept.header_parts())?;
    let mut text = String::new(alloc);
    push_header(alloc, &mut text, later, &header)?;
    Ok(text)
}

// Sends the entities, one after the other, and the header. The steps are counted for no one.
fn send_counted<S: Sink, L: Ledger>(
    alloc: Global,
    kept: &Kept,
    held: &mut Vec<u8>,
    out: &mut S,
    blank: Blank,
) -> Result<(), Fault>
    requires name { blank.name ≡ L.name }
    requires parts { blank.parts ≡ L.parts }
    requires one { blank.parts ≡ 1 }
    ensures sent { OnOk result (SendsText (S.state out.old).written (S.state out.new).written
        (held.old.items ++ array_from entity_piece (header_piece (header_of kept.now)) false (map entity_of (entity_payloads kept.now))) held.new.items) }
    ensures part { OnErr result (AppendsPrefix (S.state out.old).written (S.state out.new).written
        (held.old.items ++ array_from entity_piece (header_piece (header_of kept.now)) false (map entity_of (entity_payloads kept.now)))) }
    ensures not_read { IsErrOf result Fault.Read → ⊥ }
    ensures later { (S.state out.old).faults ≤ (S.state out.new).faults }
    ensures write { IsErrOf result Fault.Write → Rose (S.state out.old).faults (S.state out.new).faults }
{
    let mut steps: Steps<L> = Steps::new(blank);
    let mut later = false;
    for place in 0..kept.len() {
        let text = entity_text(alloc, kept.entity(place), later, &mut steps)?;
        send(text.as_str().as_bytes(), held, out)?;
        later = true;
    }
    let header = header_text(alloc, kept, later)?;
    send(header.as_str().as_bytes(), held, out)
}

/// Sends the entities of a kept snapshot, of which no more than one is held decoded, and its header.
pub fn send_entities<S: Sink>(
    alloc: Global,
    kept: &Kept,
    held: &mut Vec<u8>,
    out: &mut S,
) -> Result<(), Fault>
    ensures sent { OnOk result (SendsText (S.state out.old).written (S.state out.new).written
        (held.old.items ++ array_from entity_piece (header_piece (header_of kept.now)) false (map entity_of (entity_payloads kept.now))) held.new.items) }
    ensures part { OnErr result (AppendsPrefix (S.state out.old).written (S.state out.new).written
        (held.old.items ++ array_from entity_piece (header_piece (header_of kept.now)) false (map entity_of (entity_payloads kept.now)))) }
    ensures not_read { IsErrOf result Fault.Read → ⊥ }
    ensures later { (S.state out.old).faults ≤ (S.state out.new).faults }
    ensures write { IsErrOf result Fault.Write → Rose (S.state out.old).faults (S.state out.new).faults }
{
    send_counted::<S, Brand>(alloc, kept, held, out, Blank::new(1))
}

// Whether a field of a snapshot is of a slot: the header's, or that of its entities.
fn is_taken(field: &RawField<'_>) -> bool
    ensures { result ≡ is_of_slot feed_message (placed_field field.now).field }
{
    match field.number {
        1 | 2 => matches!(field.value, RawValue::Len(_)),
        _ => false,
    }
}

// The next field that is of no slot.
fn next_unknown<'a>(fields: &mut Fields<'a>) -> Option<RawField<'a>>
    ensures { MatchOption result (unknown_among fields.old.left ≡ [])
        (λ f. unknown_among fields.old.left ≡ (placed_field f).field ∷ unknown_among fields.new.left) }
{
    while let Some(field) = fields.next() {
        match field {
            Ok(field) => {
                if !is_taken(&field) {
                    return Some(field);
                }
            }
            Err(_) => return None,
        }
    }
    None
}

fn unknown_text(alloc: Global, field: &RawField<'_>, later: bool) -> Result<String, AllocError>
    ensures { IfOk result (λ text. string_bytes text ≡ unknown_piece later (placed_field field.now).field) }
{
    let mut text = String::new(alloc);
    push_unknown(alloc, &mut text, later, field.number, &field.value)?;
    Ok(text)
}

fn end_text(alloc: Global, later: bool) -> Result<String, AllocError>
    ensures { IfOk result (λ text. string_bytes text ≡ end_piece later) }
{
    let mut text = String::new(alloc);
    push_end(&mut text, later)?;
    Ok(text)
}

/// Sends the unknown fields of a snapshot's bytes, one after the other, and the end of the text.
pub fn send_unknown<S: Sink>(
    alloc: Global,
    bytes: &[u8],
    held: &mut Vec<u8>,
    out: &mut S,
) -> Result<(), Fault>
    ensures sent { OnOk result (SendsText (S.state out.old).written (S.state out.new).written
        (held.old.items ++ array_from unknown_piece end_piece false (unknown_among (placed_fields bytes.now))) held.new.items) }
    ensures part { OnErr result (AppendsPrefix (S.state out.old).written (S.state out.new).written
        (held.old.items ++ array_from unknown_piece end_piece false (unknown_among (placed_fields bytes.now)))) }
    ensures not_read { IsErrOf result Fault.Read → ⊥ }
    ensures later { (S.state out.old).faults ≤ (S.state out.new).faults }
    ensures write { IsErrOf result Fault.Write → Rose (S.state out.old).faults (S.state out.new).faults }
{
    let mut fields = Fields::new(bytes);
    let mut later = false;
    while let Some(field) = next_unknown(&mut fields) {
        let text = unknown_text(alloc, &field, later)?;
        send(text.as_str().as_bytes(), held, out)?;
        later = true;
    }
    let end = end_text(alloc, later)?;
    send(end.as_str().as_bytes(), held, out)
}

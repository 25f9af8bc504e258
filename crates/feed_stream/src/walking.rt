//! Going through the fields of a snapshot whose bytes still come.
ghost use Rattle.std.specs.Prelude.{◌≡◌, ◌<◌, ◌≤◌, ◌^◌, length, take, IfOk, IfSome, IsTrue};
ghost use Rattle.rt_wire.specs.Placed.{PayloadFits, placed_field, placed_fields};
ghost use Rattle.field_pieces.specs.SoFar.{IsFrontAt};
ghost use Rattle.field_pieces.specs.Stays.{Stays};
ghost use Rattle.feed_codec.specs.Refusal.{Answers, in_payload, own_fault, part_fault};
ghost use Rattle.feed_stream.specs.Layouts.{IsLayoutOf};
ghost use Rattle.feed_stream.specs.Walks.{WalkedTo};
ghost use Rattle.feed_stream.specs.Inside.{IsThrough};

use crate::beside::{Search, stands_before};
use crate::kept::Kept;
use crate::layout::Layout;
use crate::numbers::{ENTITY, HEADER};
use feed_codec::{Refusal, check_entity, check_header_part, reason_of};
use field_pieces::{FieldSoFar, Front, read_on};
use rt_wire::{RawField, RawValue, WireFault, WireReason};
use std::alloc::{AllocError, Global};

/// How far some bytes were gone through: the place behind their last whole field, and the layout of the fields before it; what was gone
/// through of a group that begins there; and why no whole field stands there, if more bytes do.
#[derive(Drop)]
pub struct Reached {
    pub next: usize,
    pub layout: Layout,
    pub front: Option<Front>,
    pub unfinished: Option<WireFault>,
}

/// How far bytes were gone through, or why they are refused, whatever comes next.
#[derive(Drop)]
pub enum Through {
    Stopped(Reached),
    Refused(Refusal),
}

/// Whether more bytes may mend a fault.
fn may_be_mended(reason: WireReason) -> bool
    ensures yes { IsTrue result → Stays reason → ⊥ }
    ensures no { (IsTrue result → ⊥) → Stays reason }
{
    match reason {
        WireReason::Truncated | WireReason::Overrun => true,
        _ => false,
    }
}

/// A fault of the wire format as a refusal.
pub fn refusal_of(fault: WireFault) -> Refusal
    ensures { result ≡ own_fault fault }
{
    Refusal::new(fault.at, reason_of(fault.reason))
}

/// The first fault inside a field of a snapshot: of a header's payload, or of an entity's.
#[tactic(auto, unfolding(feed_codec::specs::Refusal::first_fault))]
fn check_part(field: RawField<'_>) -> Result<(), Refusal>
    requires { PayloadFits field.body field.end field.value }
    ensures { Answers result (in_payload part_fault (placed_field field.entry)) }
{
    let RawValue::Len(payload) = field.value else {
        return Ok(());
    };
    match field.number {
        HEADER => check_header_part(payload, field.body),
        ENTITY => check_entity(payload, field.body),
        _ => Ok(()),
    }
}

/// The first fault inside a field of a snapshot, which isn't looked for in an entity that passed in the snapshot before.
fn check_beside(
    alloc: Global,
    field: RawField<'_>,
    before: Option<&Kept>,
    search: &mut Search,
) -> Result<Result<(), Refusal>, AllocError>
    requires { PayloadFits field.body field.end field.value }
    ensures { IfOk result (λ answer. Answers answer (in_payload part_fault (placed_field field.entry))) }
{
    if stands_before(alloc, field, before, search)? {
        return Ok(Ok(()));
    }
    Ok(check_part(field))
}

/// Goes through the fields from `from` on, as far as the bytes go. A payload is looked into once it is whole, unless it is that of an entity which stands in
/// the snapshot before.
pub fn go_through(
    alloc: Global,
    bytes: &[u8],
    from: usize,
    layout: Layout,
    front: Option<Front>,
    before: Option<&Kept>,
    search: &mut Search,
) -> Result<Through, AllocError>
    requires walked { WalkedTo bytes.now from }
    requires layout { IsLayoutOf bytes.now (placed_fields (take from bytes.now)) layout }
    requires front { IfSome front (IsFrontAt bytes.now from) }
    ensures { IfOk result (IsThrough bytes.now) }
{
    let mut next = from;
    let mut layout = layout;
    let mut front = front;
    while next < bytes.len() {
        match read_on(alloc, front, bytes, next)? {
            FieldSoFar::Plain(field) => {
                if let Err(refusal) = check_beside(alloc, field, before, search)? {
                    return Ok(Through::Refused(refusal));
                }
                layout = layout.with(alloc, bytes, field)?;
                next = field.end;
                front = None;
            }
            FieldSoFar::Group(stop) => {
                next = stop;
                front = None;
            }
            FieldSoFar::Fault(fault, open) => {
                if may_be_mended(fault.reason) {
                    return Ok(Through::Stopped(Reached {
                        next,
                        layout,
                        front: open,
                        unfinished: Some(fault),
                    }));
                }
                return Ok(Through::Refused(refusal_of(fault)));
            }
        }
    }
    Ok(Through::Stopped(Reached {
        next,
        layout,
        front: None,
        unfinished: None,
    }))
}

//! The field at a place, whose bytes may still come.
ghost use Rattle.std.specs.Prelude.{◌≡◌, ◌++◌, ◌∷◌, [], ◌<◌, ◌≤◌, length, IfOk, IfSome};
ghost use Rattle.field_pieces.specs.SoFar.{SaysSoFar, IsFrontAt, IsStart};

use crate::front::{Front, enter, go_on};
use rt_wire::{RawField, Tag, WireFault, WireType, read_field, read_tag};
use std::alloc::{AllocError, Global};

/// What the bytes so far say of the field at a place.
#[derive(Drop)]
pub enum FieldSoFar<'a> {
    /// It is whole, and no group.
    Plain(RawField<'a>),
    /// It is a whole group, and ends before this place.
    Group(usize),
    /// No field stands there, or none yet; and what was gone through of a group.
    Fault(WireFault, Option<Front>),
}

/// The start tag of a group that begins at `start`, if one does.
fn start_tag(bytes: &[u8], start: usize) -> Option<Tag>
    requires { start ≤ length bytes.now }
    ensures { IfSome result (λ tag. IsStart bytes.now start tag) }
{
    match read_tag(bytes, start) {
        Ok(tag) => match tag.wire {
            WireType::StartGroup => Some(tag),
            _ => None,
        },
        Err(_) => None,
    }
}

/// Reads a field that is no group, or whose start tag isn't there.
fn read_plain(bytes: &[u8], start: usize) -> FieldSoFar<'_>
    requires { start ≤ length bytes.now }
    ensures { SaysSoFar bytes.now start result }
{
    match read_field(bytes, start) {
        Ok(field) => FieldSoFar::Plain(field),
        Err(fault) => FieldSoFar::Fault(fault, None),
    }
}

/// Goes on in a group.
fn read_group_on<'a>(
    front: Front,
    bytes: &'a [u8],
    start: usize,
) -> Result<FieldSoFar<'a>, AllocError>
    requires start { start < length bytes.now }
    requires front { IsFrontAt bytes.now start front }
    ensures { IfOk result (SaysSoFar bytes.now start) }
{
    let mut front = front;
    match go_on(&mut front, bytes, start)? {
        Ok(stop) => Ok(FieldSoFar::Group(stop)),
        Err(fault) => Ok(FieldSoFar::Fault(fault, Some(front))),
    }
}

/// Reads the field that begins at `start`, a place of `bytes` from 0, where `front` is what was gone through of it while fewer bytes
/// were there, and none where it is read for the first time or is no group.
///
/// Memory is taken for the numbers of open groups alone, at most 100. A fault is that of `Fields` for these bytes.
/// (Protocol Buffers, Encoding, "Message Structure", "Groups".)
pub fn read_on<'a>(
    alloc: Global,
    front: Option<Front>,
    bytes: &'a [u8],
    start: usize,
) -> Result<FieldSoFar<'a>, AllocError>
    requires start { start < length bytes.now }
    requires front { IfSome front (IsFrontAt bytes.now start) }
    ensures { IfOk result (SaysSoFar bytes.now start) }
{
    match front {
        Some(front) => read_group_on(front, bytes, start),
        None => match start_tag(bytes, start) {
            Some(tag) => read_group_on(enter(alloc, tag), bytes, start),
            None => Ok(read_plain(bytes, start)),
        },
    }
}

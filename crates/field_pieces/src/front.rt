//! A group whose bytes still come.
ghost use Rattle.std.specs.Prelude.{◌≡◌, ◌++◌, ◌∷◌, [], ◌<◌, ◌≤◌, ◌+◌, length, Err, IfOk, MatchResult};
ghost use Rattle.rt_wire.specs.Placed.{field_from};
ghost use Rattle.field_pieces.specs.Fronts.{IsFront, IsGroupTo};

use rt_wire::{Tag, WireFault, WireReason, WireType, read_tag, skip_value};
use std::alloc::{AllocError, Global};

/// How deep groups may nest. A group directly in a message has depth 1. (This profile.)
const DEPTH_LIMIT: usize = 100;

/// A front of a group that was gone through: the numbers of the groups that are open in it, the innermost apart, and the place
/// behind it.
#[derive(Drop)]
pub struct Front {
    pub outer: Vec<u32>,
    pub number: u32,
    pub at: usize,
}

/// The front that a start tag is.
pub fn enter(alloc: Global, tag: Tag) -> Front
    ensures outer { result.outer.items ≡ [] }
    ensures number { result.number ≡ tag.number }
    ensures at { result.at ≡ tag.next }
{
    Front {
        outer: Vec::new(alloc),
        number: tag.number,
        at: tag.next,
    }
}

/// Goes on behind the front of the group that begins at `start`, as far as the bytes go: the place after the group, or why no
/// field begins at `start`.
pub fn go_on(
    front: &mut Front,
    bytes: &[u8],
    start: usize,
) -> Result<Result<usize, WireFault>, AllocError>
    requires start { start < length bytes.now }
    requires front { IsFront bytes.now start (front.old.outer.items ++ front.old.number ∷ []) front.old.at }
    ensures found { IfOk result (λ r. MatchResult r (IsGroupTo bytes.now start) (λ f. field_from bytes.now start ≡ Err f)) }
    ensures front { IfOk result (λ r. MatchResult r (λ _. Unit {0}) (λ _. IsFront bytes.now start (front.new.outer.items ++ front.new.number ∷ []) front.new.at)) }
{
    loop {
        let tag = match read_tag(bytes, front.at) {
            Ok(tag) => tag,
            Err(fault) => return Ok(Err(fault)),
        };
        match tag.wire {
            WireType::StartGroup => {
                if front.outer.len() + 1 >= DEPTH_LIMIT {
                    return Ok(Err(WireFault::new(tag.at, WireReason::TooDeep)));
                }
                front.outer.push(front.number)?;
                front.number = tag.number;
                front.at = tag.next;
            }
            WireType::EndGroup => {
                if tag.number != front.number {
                    return Ok(Err(WireFault::new(tag.at, WireReason::GroupMismatch)));
                }
                match front.outer.pop() {
                    Some(number) => front.number = number,
                    None => return Ok(Ok(tag.next)),
                }
                front.at = tag.next;
            }
            _ => match skip_value(bytes, tag) {
                Ok(next) => front.at = next,
                Err(fault) => return Ok(Err(fault)),
            },
        }
    }
}

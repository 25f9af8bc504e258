//! One entity, or one payload of the header, by itself.
ghost use Rattle.std.specs.Prelude.{◌≡◌, ◌+◌, ◌≤◌, ◌<◌, ◌^◌, length, IfErr, IfOk};
ghost use Rattle.std.specs.Option.{option_map};
ghost use Rattle.feed_values.specs.Messages.{feed_header, entity};
ghost use Rattle.feed_values.specs.Meaning.{fields, meaning};
ghost use Rattle.feed_values.specs.Views.{feed_header_value, entity_value};
ghost use Rattle.feed_values.specs.WellFormed.{IsWellFormed};
ghost use Rattle.feed_codec.specs.Parts.{IsJoined};
ghost use Rattle.feed_codec.specs.Refusal.{Answers, first_fault, entity_fault, shifted};

use crate::checking::{check_message, moved};
use crate::message::message_of;
use crate::missing::missing_in_entity;
use crate::refusal::{Reason, Refusal};
use feed_values::{Entity, FeedHeader};
use rt_outside::Steps;
use std::alloc::{AllocError, Global};
use std::sync::ledger::Ledger;

/// The first fault of the payload of an entity, with its place in the payload.
#[tactic(auto, unfolding(crate::specs::Refusal::entity_fault, crate::specs::Refusal::first_fault))]
pub fn check_entity_payload(bytes: &[u8]) -> Result<(), Refusal>
    ensures answer { Answers result (entity_fault bytes.now) }
    ensures place { IfErr result (λ r. r.at ≤ length bytes.now) }
{
    check_message::<Entity>(bytes)?;
    match missing_in_entity(bytes) {
        Some(slot) => Err(Refusal::new(bytes.len(), Reason::MissingField(slot))),
        None => Ok(()),
    }
}

/// The first fault of the payload of an entity, as a place of the snapshot, in which the payload begins at byte `base`.
///
/// Inside the payload fields are taken left to right, and for each its own fault first. A required slot that is missing
/// comes after all other faults, at the payload's end: the first in the order id, trip, latitude, longitude, text, after
/// parts of one message are joined. It takes no memory. (Protocol Buffers, Encoding; GTFS Realtime Reference 2.0,
/// "FeedEntity"; the order of faults is this profile's.)
pub fn check_entity(bytes: &[u8], base: usize) -> Result<(), Refusal>
    requires { base + length bytes.now < 2 ^ 64 }
    ensures { Answers result (option_map (shifted base) (entity_fault bytes.now)) }
{
    moved(check_entity_payload(bytes), base)
}

/// The first fault of one payload of the header, as a place of the snapshot, in which the payload begins at byte `base`.
///
/// A header may come in several payloads. What they have to hold together is asked at the snapshot's end, by
/// `check_header`, so this never answers `MissingField` or `Differential`. It takes no memory.
/// (Protocol Buffers, Encoding, "Last One Wins"; GTFS Realtime Reference 2.0, "FeedHeader".)
#[tactic(auto, unfolding(crate::specs::Refusal::first_fault))]
pub fn check_header_part(bytes: &[u8], base: usize) -> Result<(), Refusal>
    requires { base + length bytes.now < 2 ^ 64 }
    ensures { Answers result (option_map (shifted base) (first_fault feed_header bytes.now)) }
{
    moved(check_message::<FeedHeader>(bytes), base)
}

/// The entity that a payload means, which `check_entity` has to pass.
///
/// It counts one step, also where memory is wanting, which is its one error. (GTFS Realtime Reference 2.0, "FeedEntity".)
pub fn decode_entity<L: Ledger>(
    alloc: Global,
    bytes: &[u8],
    steps: &mut Steps<L>,
) -> Result<Entity, AllocError>
    requires { entity_fault bytes.now ≡ None }
    ensures value { IfOk result (λ found. entity_value found ≡ meaning entity (fields bytes.now)) }
    ensures well_formed { IfOk result (λ found. IsWellFormed entity (entity_value found)) }
    ensures step { steps.new ≡ steps.old + 1 }
{
    steps.tick();
    match message_of(alloc, bytes) {
        Ok(entity) => Ok(entity),
        Err(_) => Err(AllocError),
    }
}

/// The header that its payloads mean together. `parts` is these payloads, joined, each of which `check_header_part` has to
/// pass by itself.
///
/// Where `check_header` doesn't pass, a version that is missing is an empty text. The one error is want of memory.
/// (GTFS Realtime Reference 2.0, "FeedHeader".)
pub fn decode_header(alloc: Global, parts: &[u8]) -> Result<FeedHeader, AllocError>
    requires { IsJoined parts.now }
    ensures value { IfOk result (λ header. feed_header_value header ≡ meaning feed_header (fields parts.now)) }
    ensures well_formed { IfOk result (λ header. IsWellFormed feed_header (feed_header_value header)) }
{
    match message_of(alloc, parts) {
        Ok(header) => Ok(header),
        Err(_) => Err(AllocError),
    }
}

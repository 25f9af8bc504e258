//! A whole snapshot: checked without memory, or checked and decoded in one walk.
ghost use Rattle.std.specs.Prelude.{◌≡◌, length, IfOk, IsTrue};
ghost use Rattle.rt_wire.specs.Placed.{placed_fields};
ghost use Rattle.feed_values.specs.Messages.{feed_message};
ghost use Rattle.feed_values.specs.Meaning.{fields, meaning};
ghost use Rattle.feed_values.specs.Views.{feed_message_value};
ghost use Rattle.feed_values.specs.WellFormed.{IsWellFormedFeed};
ghost use Rattle.feed_codec.specs.Refusal.{Answers, first_in, in_payload, part_fault, end_fault, refusal};
ghost use Rattle.feed_codec.specs.Decoded.{Decodes};
ghost use Rattle.feed_codec.specs.declared.codec_fault.CodecFault.TheVariants.{Memory};

use crate::checking::{Checked, check_message};
use crate::codec_fault::CodecFault;
use crate::entity::check_entity_payload;
use crate::header::{DIFFERENTIAL, snapshot_incrementality};
use crate::message::message_of;
use crate::numbers::{ENTITY, HEADER, VERSION};
use crate::paths::{has_inner_payload, has_payload};
use crate::refusal::{Reason, Refusal, Required};
use crate::stopped::Stopped;
use feed_values::{FeedHeader, FeedMessage};
use std::alloc::Global;

/// The most bytes that a snapshot has. (This profile.)
pub const SNAPSHOT_LIMIT: usize = 67_108_864;

impl Checked for FeedMessage {
    ghost wrong = { part_fault };

    #[tactic(auto, unfolding(crate::specs::Refusal::first_fault))]
    fn check_slot(number: u32, payload: &[u8]) -> Result<(), Refusal> {
        match number {
            HEADER => check_message::<FeedHeader>(payload),
            ENTITY => check_entity_payload(payload),
            _ => Ok(()),
        }
    }
}

/// What is wrong at the snapshot's end: a header or its version is missing, or it is DIFFERENTIAL.
#[tactic(auto, using(crate::proofs::Snapshots::end_at))]
fn check_end(bytes: &[u8]) -> Result<(), Refusal>
    requires { first_in (in_payload part_fault) (placed_fields bytes.now) ≡ None }
    ensures { Answers result (end_fault (length bytes.now) (fields bytes.now)) }
{
    let at = bytes.len();
    if !has_payload(bytes, HEADER) {
        return Err(Refusal::new(at, Reason::MissingField(Required::Header)));
    }
    if !has_inner_payload(bytes, HEADER, VERSION) {
        return Err(Refusal::new(at, Reason::MissingField(Required::Version)));
    }
    if snapshot_incrementality(bytes) == Some(DIFFERENTIAL) {
        return Err(Refusal::new(at, Reason::Differential));
    }
    Ok(())
}

/// The first fault of a snapshot, if it has one. It takes no memory.
///
/// More than 67,108,864 bytes go before everything else that the bytes hold. Otherwise fields are taken left to right: for
/// each its own fault, then those inside its payload, where a slot that an entity lacks comes at the entity's end. At the
/// snapshot's end come a missing header, a missing version, and DIFFERENTIAL, in this order.
/// (Protocol Buffers, Encoding; GTFS Realtime Reference 2.0, "Element Index"; the order of faults is this profile's.)
#[tactic(auto, unfolding(crate::specs::Refusal::refusal))]
pub fn check_snapshot(bytes: &[u8]) -> Result<(), Refusal>
    ensures { Answers result (refusal bytes.now) }
{
    if bytes.len() > SNAPSHOT_LIMIT {
        return Err(Refusal::new(SNAPSHOT_LIMIT, Reason::TooLarge));
    }
    check_message::<FeedMessage>(bytes)?;
    check_end(bytes)
}

/// Whether nothing is wrong at the end of a snapshot that means this message, where nothing is wrong before.
fn ends_well(message: &FeedMessage, bytes: &[u8]) -> bool
    requires fine { first_in (in_payload part_fault) (placed_fields bytes.now) ≡ None }
    requires value { feed_message_value message.now ≡ meaning feed_message (fields bytes.now) }
    ensures { IsTrue result → end_fault (length bytes.now) (fields bytes.now) ≡ None }
{
    if !has_payload(bytes, HEADER) {
        return false;
    }
    if !has_inner_payload(bytes, HEADER, VERSION) {
        return false;
    }
    match message.header.incrementality {
        Some(given) => given != DIFFERENTIAL,
        None => true,
    }
}

/// What an accepted snapshot means, in one walk through its bytes. It is stopped where the snapshot isn't accepted.
#[tactic(auto, unfolding(crate::specs::Refusal::refusal))]
fn decode_accepted(alloc: Global, bytes: &[u8]) -> Result<FeedMessage, Stopped>
    ensures accepted { IfOk result (λ _. refusal bytes.now ≡ None) }
    ensures value { IfOk result (λ message. feed_message_value message ≡ meaning feed_message (fields bytes.now)) }
{
    if bytes.len() > SNAPSHOT_LIMIT {
        return Err(Stopped);
    }
    let message = message_of(alloc, bytes)?;
    if !ends_well(&message, bytes) {
        return Err(Stopped);
    }
    Ok(message)
}

/// What the bytes of a snapshot mean, or their first fault, which is that of `check_snapshot`.
///
/// Bytes are refused whatever memory there is: `Memory` is answered only where they are accepted. What is given is well
/// formed, so that `encode` takes it.
///
/// A number, text or enum that comes more than once holds the last, a message that comes in parts all of them together, and
/// a repeated field each in order. Bits past a number's width are dropped. An enum number that the reference doesn't name,
/// and each field of no slot, is kept as unknown.
/// (Protocol Buffers, Encoding, "Last One Wins", "Submessages"; GTFS Realtime Reference 2.0, "Elements".)
pub fn decode(alloc: Global, bytes: &[u8]) -> Result<FeedMessage, CodecFault>
    ensures value { Decodes feed_message_value result (refusal bytes.now) (meaning feed_message (fields bytes.now)) }
    ensures well_formed { IfOk result (λ message. IsWellFormedFeed (feed_message_value message)) }
    ensures memory { result ≡ Err Memory → refusal bytes.now ≡ None }
{
    match decode_accepted(alloc, bytes) {
        Ok(message) => Ok(message),
        Err(_) => {
            check_snapshot(bytes)?;
            Err(CodecFault::Memory)
        }
    }
}

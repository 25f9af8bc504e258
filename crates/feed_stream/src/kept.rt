//! An accepted snapshot.
ghost use Rattle.std.specs.Prelude.{◌≡◌, ◌<◌, [], length, take, drop, Some, None, IfSome, slice_get};
ghost use Rattle.std.specs.List.{concat};
ghost use Rattle.rt_wire.specs.Fields.{IsBytes};
ghost use Rattle.feed_values.specs.Accepted.{IsAccepted};
ghost use Rattle.feed_values.specs.Messages.{feed_header};
ghost use Rattle.feed_values.specs.Meaning.{fields, meaning};
ghost use Rattle.feed_values.specs.Snapshot.{entity_of, entity_payloads, header_of};
ghost use Rattle.feed_codec.specs.Refusal.{entity_fault, refusal};
ghost use Rattle.feed_codec.specs.Parts.{IsJoined};
ghost use Rattle.feed_codec.specs.LastPayloads.{last_at};
ghost use Rattle.feed_stream.specs.Layouts.{IsLayout};
ghost use Rattle.feed_stream.specs.Payloads.{entity_bases, header_payloads};
ghost use Rattle.feed_stream.specs.Parts.{IsWithin, part_bytes};

use crate::layout::Layout;
use crate::numbers::ID;
use crate::part::Part;
use feed_codec::last_payload;
use std::marker::Model;
use std::str;

/// An accepted snapshot, which contracts see as its bytes.
///
/// It holds the bytes once, and two places for each entity. None of its methods takes memory.
#[derive(Drop)]
pub struct Kept {
    bytes: Vec<u8>,
    layout: Layout,
}

impl Model for Kept {
    ghost use Rattle.std.specs.Prelude.{List, ℕ};

    ghost Value = { List ℕ };

    ghost use Rattle.feed_stream.specs.Held.{IsKept};

    ghost view = { λ s. s.bytes.items };

    ghost invariant = { IsKept };
}

/// The id in an entity that passes.
fn id_in(entity: &[u8]) -> &str
    requires { entity_fault entity.now ≡ None }
    ensures id { result.now ≡ (entity_of entity.now).0 }
    ensures field { last_at [] 1 (fields entity.now) ≡ Some result.now }
{
    let Some(id) = last_payload(entity, ID) else {
        unreachable!();
    };
    match str::from_utf8(id) {
        Ok(text) => text,
        Err(_) => unreachable!(),
    }
}

impl Kept {
    /// The snapshot of these bytes, whose layout is known. It takes no memory.
    pub(crate) fn of(bytes: Vec<u8>, layout: Layout) -> Kept
        requires bytes { IsBytes bytes.items }
        requires accepted { refusal bytes.items ≡ None }
        requires layout { IsLayout bytes.items layout }
        ensures { result ≡ bytes.items }
    {
        Kept { bytes, layout }
    }

    /// The bytes of the snapshot, which is accepted.
    pub fn bytes(&self) -> &[u8]
        ensures bytes { result.now ≡ self.now }
        ensures accepted { refusal self.now ≡ None }
        ensures snapshot { IsBytes self.now × IsAccepted self.now }
    {
        self.bytes.as_slice()
    }

    /// How many entities the snapshot has.
    pub fn len(&self) -> usize
        ensures { result ≡ length (entity_payloads self.now) }
    {
        self.layout.entities.len()
    }

    /// The payload of entity `i`, counted from 0, which `decode_entity` takes. (GTFS Realtime Reference 2.0, "FeedEntity".)
    pub fn entity(&self, i: usize) -> &[u8]
        requires { i < length (entity_payloads self.now) }
        ensures payload { Some result.now ≡ slice_get (entity_payloads self.now) i }
        ensures passes { entity_fault result.now ≡ None }
    {
        let part = self.part(i);
        &self.bytes[part.start..part.end]
    }

    /// The id of entity `i`, counted from 0: the text of its last id field, which is a part of `bytes`.
    /// (GTFS Realtime Reference 2.0, "FeedEntity"; Protocol Buffers, Encoding, "Last One Wins".)
    pub fn entity_id(&self, i: usize) -> &str
        requires { i < length (entity_payloads self.now) }
        ensures id { IfSome (slice_get (entity_payloads self.now) i) (λ payload. result.now ≡ (entity_of payload).0) }
        ensures field { IfSome (slice_get (entity_payloads self.now) i) (λ payload. last_at [] 1 (fields payload) ≡ Some result.now) }
    {
        id_in(self.entity(i))
    }

    /// The place in `bytes` where the payload of entity `i` begins, from which a fault inside it is counted.
    pub fn entity_base(&self, i: usize) -> usize
        requires { i < length (entity_payloads self.now) }
        ensures base { Some result ≡ slice_get (entity_bases self.now) i }
        ensures begins { IfSome (slice_get (entity_payloads self.now) i) (λ payload. take (length payload) (drop result self.now) ≡ payload) }
    {
        self.part(i).start
    }

    fn part(&self, i: usize) -> Part
        requires { i < length (entity_payloads self.now) }
        ensures within { IsWithin self.now result }
        ensures payload { Some (part_bytes self.now result) ≡ slice_get (entity_payloads self.now) i }
        ensures base { Some result.start ≡ slice_get (entity_bases self.now) i }
    {
        self.layout.entities[i]
    }

    /// The payloads of the header, joined in their order, which `decode_header` takes.
    /// (GTFS Realtime Reference 2.0, "FeedHeader"; Protocol Buffers, Encoding, "Last One Wins".)
    pub fn header_parts(&self) -> &[u8]
        ensures joined { result.now ≡ concat (header_payloads self.now) }
        ensures passes { IsJoined result.now }
        ensures header { meaning feed_header (fields result.now) ≡ header_of self.now }
    {
        self.layout.header.bytes_in(&self.bytes)
    }
}

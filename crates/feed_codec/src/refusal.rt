//! Why bytes are no snapshot.
ghost use Rattle.std.specs.Prelude.{◌≡◌};
ghost use Rattle.feed_codec.specs.Refusal.{refused};

pub use feed_values::Required;

/// What is wrong with a snapshot, and at which place.
///
/// The first eight are faults of the wire format. (Protocol Buffers, Encoding, "Message Structure", "Groups".) Where a
/// field lies in a payload, "the end" is that payload's, while the place counts from the front of the snapshot.
#[derive(Clone, Copy, Debug, PartialEq, Eq)]
pub enum Reason {
    /// The bytes end inside a varint or a fixed value, or where a tag is due inside a group. At the first byte of that
    /// varint or value, or at the end.
    Truncated,
    /// The tenth byte of a varint is at least 128. At the varint's first byte.
    VarintTooLong,
    /// A tag is 2^32 or more, or its field number is 0. At the tag's first byte.
    BadTag,
    /// The wire type of a tag is 6 or 7. At the tag's first byte.
    BadWireType,
    /// A length passes the end of the message that holds the field, be it inside a group of that message or not. At the
    /// first byte of the length.
    Overrun,
    /// An end tag where no group is open. At the tag's first byte.
    LoneEndGroup,
    /// An end tag with another number than the innermost open group. At the tag's first byte.
    GroupMismatch,
    /// A group inside a hundred others. At the first byte of its start tag. (This profile.)
    TooDeep,
    /// A text isn't UTF-8, also one that a later field overrides. At the first byte after its longest valid prefix.
    NotText,
    /// A field that the reference marks as required is missing: one of an entity at the end of the entity's payload, and
    /// the header or its version at the snapshot's end. It is asked after the parts of one message are joined.
    MissingField(Required),
    /// The incrementality is DIFFERENTIAL, which this program doesn't take. At the snapshot's end, after all else.
    Differential,
    /// More than 67,108,864 bytes. At the first byte past them, before all else. (This profile.)
    TooLarge,
    /// The file of the snapshot isn't there, as the program answers; no call of this crate does. At 0.
    NoFile,
}

/// A place, as a byte of the whole snapshot from 0, and what is wrong there.
#[derive(Clone, Copy, Debug, PartialEq, Eq)]
pub struct Refusal {
    pub at: usize,
    pub reason: Reason,
}

impl Refusal {
    pub fn new(at: usize, reason: Reason) -> Refusal
        ensures { result ≡ refused at reason }
    {
        Refusal { at, reason }
    }
}

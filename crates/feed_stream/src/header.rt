//! The payloads of a snapshot's header, taken together.
ghost use Rattle.std.specs.Prelude.{◌≡◌, ◌++◌, [], Some, IfOk, length, unwrap_or};
ghost use Rattle.feed_codec.specs.Refusal.{Answers};
ghost use Rattle.feed_stream.specs.Parts.{IsWithin, IsHeader, part_bytes, header_bytes, header_held};
ghost use Rattle.feed_stream.specs.Ends.{header_end_fault};

use crate::part::Part;
use feed_codec::{Reason, Refusal, Required, check_header};
use std::alloc::{AllocError, Global};

/// The payloads of a header, joined.
#[derive(Drop)]
pub enum Header {
    /// No payload came. An empty one is no missing one.
    Missing,
    /// The header came in one payload, which is this range of the snapshot.
    Whole(Part),
    /// It came in several, which are joined here.
    Joined(Vec<u8>),
}

impl Header {
    /// The payloads, of a header of the snapshot `bytes`, and no bytes where none came.
    pub fn bytes_in<'a>(&'a self, bytes: &'a [u8]) -> &'a [u8]
        requires { IsHeader bytes.now self.now }
        ensures { result.now ≡ header_bytes bytes.now self.now }
    {
        match self {
            Header::Missing => &bytes[..0],
            Header::Whole(part) => &bytes[part.start..part.end],
            Header::Joined(joined) => joined.as_slice(),
        }
    }

    /// The header with one more payload, which is a part of the snapshot `bytes`. The first takes no memory.
    pub fn with(self, alloc: Global, bytes: &[u8], part: Part) -> Result<Header, AllocError>
        requires header { IsHeader bytes.now self }
        requires part { IsWithin bytes.now part }
        ensures within { IfOk result (IsHeader bytes.now) }
        ensures joined { IfOk result (λ header. header_held bytes.now header ≡ Some (unwrap_or (header_held bytes.now self) [] ++ part_bytes bytes.now part)) }
    {
        let payload = &bytes[part.start..part.end];
        match self {
            Header::Missing => Ok(Header::Whole(part)),
            Header::Whole(first) => {
                let mut joined = Vec::from_slice(alloc, &bytes[first.start..first.end])?;
                joined.extend_from_slice(payload)?;
                Ok(Header::Joined(joined))
            }
            Header::Joined(joined) => {
                let mut joined = joined;
                joined.extend_from_slice(payload)?;
                Ok(Header::Joined(joined))
            }
        }
    }

    /// What is wrong with the header of the snapshot `bytes` at its end: none came, its version is missing, or it is DIFFERENTIAL.
    pub fn check(&self, bytes: &[u8]) -> Result<(), Refusal>
        requires { IsHeader bytes.now self.now }
        ensures { Answers result (header_end_fault (length bytes.now) (header_held bytes.now self.now)) }
    {
        match self {
            Header::Missing => Err(Refusal::new(
                bytes.len(),
                Reason::MissingField(Required::Header),
            )),
            Header::Whole(part) => check_header(&bytes[part.start..part.end], bytes.len()),
            Header::Joined(joined) => check_header(joined.as_slice(), bytes.len()),
        }
    }
}

//! Why a snapshot isn't decoded.
ghost use Rattle.std.specs.Prelude.{◌≡◌};
ghost use Rattle.feed_codec.specs.declared.codec_fault.CodecFault.TheVariants.{Memory, Refused};

use crate::refusal::Refusal;
use std::alloc::AllocError;
use thiserror::Error;

/// Why a snapshot isn't decoded: it is refused, or no memory is left.
#[derive(Clone, Copy, Debug, PartialEq, Eq, Error)]
pub enum CodecFault {
    /// The first fault of the bytes, which more memory wouldn't cure.
    #[error("{0:?}")]
    Refused(Refusal),
    /// No memory was left for the value of an accepted snapshot.
    #[error("out of memory")]
    Memory,
}

impl From<AllocError> for CodecFault {
    ghost from_gives = { λ _ e. e ≡ Memory };

    fn from(_e: AllocError) -> CodecFault {
        CodecFault::Memory
    }
}

impl From<Refusal> for CodecFault {
    ghost from_gives = { λ r e. e ≡ Refused r };

    fn from(refusal: Refusal) -> CodecFault {
        CodecFault::Refused(refusal)
    }
}

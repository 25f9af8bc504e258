//! Why a union has no bytes.
ghost use Rattle.std.specs.Prelude.{◌≡◌};
ghost use Rattle.feed_merge.specs.declared.merge_fault.MergeFault.TheVariants.{Memory};

use std::alloc::AllocError;

/// Why the bytes of a union aren't given.
#[derive(Clone, Copy, Debug, PartialEq, Eq)]
pub enum MergeFault {
    /// They are more than a snapshot may have.
    TooLarge,
    /// No memory was found.
    Memory,
}

impl From<AllocError> for MergeFault {
    ghost from_gives = { λ _ e. e ≡ Memory };

    fn from(_: AllocError) -> Self {
        MergeFault::Memory
    }
}

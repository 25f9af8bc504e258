//! Why a request isn't carried out.
ghost use Rattle.std.specs.Prelude.{◌≡◌};
ghost use Rattle.run_base.specs.declared.fault.Fault.TheVariants.{Memory, Write};

use rt_outside::Failed;
use std::alloc::AllocError;

/// Why a request isn't carried out.
#[derive(Clone, Copy, Debug, PartialEq, Eq)]
pub enum Fault {
    /// A file couldn't be read.
    Read,
    /// The output couldn't be written.
    Write,
    /// No memory was found.
    Memory,
}

impl From<AllocError> for Fault {
    ghost from_gives = { λ _ e. e ≡ Memory };

    fn from(_: AllocError) -> Self {
        Fault::Memory
    }
}

impl From<Failed> for Fault {
    ghost from_gives = { λ _ e. e ≡ Write };

    fn from(_: Failed) -> Self {
        Fault::Write
    }
}

//! Why there is no summary.
ghost use Rattle.std.specs.Prelude.{◌≡◌};
ghost use Rattle.rt_summary.specs.declared.trouble.Trouble.TheVariants.{Memory, Write};

use rt_outside::{Failed, ReadEnd};
use std::alloc::{AllocError, Global};

/// Why there is no summary. The statuses are those of `rt_command`.
#[derive(Drop)]
pub enum Trouble {
    /// A file can't be read: the text says which.
    Read(String),
    Write,
    Memory,
    /// A file is refused: the text says which and why.
    Refused(String),
}

impl Trouble {
    pub fn read(alloc: Global, name: &str) -> Trouble {
        match format!(in alloc; "read fault: {name}\n") {
            Ok(text) => Trouble::Read(text),
            Err(_) => Trouble::Memory,
        }
    }

    pub fn refused(alloc: Global, name: &str, why: &str) -> Trouble {
        match format!(in alloc; "refused: {name}: {why}\n") {
            Ok(text) => Trouble::Refused(text),
            Err(_) => Trouble::Memory,
        }
    }

    /// The file of this name isn't read whole.
    pub fn unread(alloc: Global, name: &str, end: ReadEnd) -> Trouble {
        match end {
            ReadEnd::Absent => Trouble::refused(alloc, name, "missing file"),
            ReadEnd::TooLarge => Trouble::refused(alloc, name, "too large"),
            ReadEnd::ReadFault => Trouble::read(alloc, name),
            ReadEnd::Memory => Trouble::Memory,
        }
    }

    pub fn text(&self) -> &str {
        match self {
            Trouble::Read(text) | Trouble::Refused(text) => text.as_str(),
            Trouble::Write => "write fault\n",
            Trouble::Memory => "out of memory\n",
        }
    }

    pub fn status(&self) -> u8 {
        match self {
            Trouble::Read(_) => 3,
            Trouble::Write => 4,
            Trouble::Memory => 5,
            Trouble::Refused(_) => 6,
        }
    }
}

impl From<AllocError> for Trouble {
    ghost from_gives = { λ _ e. e ≡ Memory };

    fn from(_: AllocError) -> Self {
        Trouble::Memory
    }
}

impl From<Failed> for Trouble {
    ghost from_gives = { λ _ e. e ≡ Write };

    fn from(_: Failed) -> Self {
        Trouble::Write
    }
}

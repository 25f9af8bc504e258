//! Files of which a pull gives one byte, and files without an end.

use rt_outside::{Failed, Files, MemoryFiles, Opening};

/// Files of which a pull gives one byte.
#[derive(Drop)]
pub struct Dripping {
    pub files: MemoryFiles,
}

impl Files for Dripping {
    ghost use Rattle.std.specs.Prelude.{◌+◌};
    ghost use Rattle.std.specs.Prelude.{None};

    ghost state = { λ dripping. record { told = None; asked = None; faults = dripping.files.calls.faults } };

    fn open_file(&mut self, name: &str) -> Opening {
        self.files.open_file(name)
    }

    fn pull(&mut self, buf: &mut [u8]) -> Result<usize, Failed> {
        match buf.first_chunk_mut::<1>() {
            Some(first) => self.files.pull(first),
            None => Ok(0),
        }
    }
}

/// A file of any name that never ends.
#[derive(Drop)]
pub struct Endless {}

impl Files for Endless {
    ghost use Rattle.std.specs.Prelude.{None};

    ghost state = { λ _. record { told = None; asked = None; faults = 0 } };

    fn open_file(&mut self, _name: &str) -> Opening {
        Opening::Opened
    }

    fn pull(&mut self, buf: &mut [u8]) -> Result<usize, Failed> {
        Ok(buf.len())
    }
}

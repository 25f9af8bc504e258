//! Files of which a pull gives a byte.

use rt_outside::{Failed, Files, Opening, QuietFiles};

/// Files of which a pull gives no more than a byte.
#[derive(Drop)]
pub struct Drip {
    files: QuietFiles,
}

impl Drip {
    pub fn new(files: QuietFiles) -> Drip {
        Drip { files }
    }
}

impl Files for Drip {
    ghost use Rattle.std.specs.Prelude.{None};

    ghost state = { λ _. record { told = None; asked = None; faults = 0 } };

    fn open_file(&mut self, name: &str) -> Opening {
        self.files.open_file(name)
    }

    fn pull(&mut self, buf: &mut [u8]) -> Result<usize, Failed> {
        let Some(first) = buf.first_chunk_mut::<1>() else {
            return Ok(0);
        };
        self.files.pull(first)
    }
}

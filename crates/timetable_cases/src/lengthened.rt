//! Files of which one is long.

use rt_outside::{Failed, Files, Opening, QuietFiles};

/// Files of which one is lengthened by line feeds, so that it has `size` bytes.
#[derive(Drop)]
pub struct Lengthened<'a> {
    files: QuietFiles,
    name: &'a str,
    size: usize,
    // How many bytes of it were given, while it is open.
    given: Option<usize>,
}

impl<'a> Lengthened<'a> {
    pub fn new(files: QuietFiles, name: &'a str, size: usize) -> Lengthened<'a> {
        Lengthened {
            files,
            name,
            size,
            given: None,
        }
    }
}

impl Files for Lengthened<'_> {
    ghost use Rattle.std.specs.Prelude.{None};

    ghost state = { λ _. record { told = None; asked = None; faults = 0 } };

    fn open_file(&mut self, name: &str) -> Opening {
        self.given = if name == self.name { Some(0) } else { None };
        self.files.open_file(name)
    }

    fn pull(&mut self, buf: &mut [u8]) -> Result<usize, Failed> {
        let count = self.files.pull(buf)?;
        let Some(given) = self.given else {
            return Ok(count);
        };
        let count = if count == 0 {
            let more = buf.len().min(self.size.saturating_sub(given));
            buf[..more].fill(b'\n');
            more
        } else {
            count
        };
        self.given = Some(given.saturating_add(count));
        Ok(count)
    }
}

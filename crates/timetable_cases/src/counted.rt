//! Files whose openings are counted.

use rt_outside::{Failed, Files, Opening, QuietFiles};

/// Files of which it is counted how often one is opened, and how often another.
#[derive(Drop)]
pub struct Counted<'a> {
    files: QuietFiles,
    name: &'a str,
    opened: usize,
    others: usize,
}

impl<'a> Counted<'a> {
    pub fn new(files: QuietFiles, name: &'a str) -> Counted<'a> {
        Counted {
            files,
            name,
            opened: 0,
            others: 0,
        }
    }

    /// How often the named file was opened, and how often another.
    pub fn openings(&self) -> (usize, usize) {
        (self.opened, self.others)
    }
}

impl Files for Counted<'_> {
    ghost use Rattle.std.specs.Prelude.{None};

    ghost state = { λ _. record { told = None; asked = None; faults = 0 } };

    fn open_file(&mut self, name: &str) -> Opening {
        if name == self.name {
            self.opened = self.opened.saturating_add(1);
        } else {
            self.others = self.others.saturating_add(1);
        }
        self.files.open_file(name)
    }

    fn pull(&mut self, buf: &mut [u8]) -> Result<usize, Failed> {
        self.files.pull(buf)
    }
}

//! How much of a long report is read, told on a terminal.
ghost use Rattle.std.specs.Prelude.{◌≡◌};

use rt_outside::{Failed, Files, Opening};
use std::io::IsTerminal;

// So many bytes are read before it is told, and again before it is told anew.
const STEP: u64 = 16_777_216;

/// Files of which it is told on standard error how much is read, where that is a terminal and they are long.
#[derive(Drop)]
pub struct Watched<'a, F> {
    rt: &'a HostRuntime,
    files: F,
    is_watched: bool,
    bytes: u64,
    told: u64,
}

impl<'a, F: Files + Drop> Watched<'a, F> {
    /// These files, of which nothing is read yet.
    pub fn new(rt: &'a HostRuntime, files: F) -> Watched<'a, F> {
        Watched {
            rt,
            files,
            is_watched: rt.stderr().is_terminal(),
            bytes: 0,
            told: 0,
        }
    }

    /// Takes what was told off the terminal.
    pub fn clear(&mut self) {
        if self.told > 0 {
            self.is_watched = eprint!(self.rt; "\r                                \r").is_ok();
        }
    }

    // So many bytes more are read.
    fn advance(&mut self, count: usize)
        ensures { self.new.files ≡ self.old.files }
    {
        self.bytes = self.bytes.saturating_add(count as u64);
        if self.is_watched && self.bytes.saturating_sub(self.told) >= STEP {
            self.told = self.bytes;
            self.tell();
        }
    }

    // Where the terminal can't be written, nothing more is told.
    fn tell(&mut self)
        ensures { self.new.files ≡ self.old.files }
    {
        let mebibytes = self.bytes / 1_048_576;
        self.is_watched = eprint!(self.rt; "\r{mebibytes} MiB read").is_ok();
    }
}

impl<F: Files + Drop> Files for Watched<'_, F> {
    ghost state = { λ watched. F.state watched.files };

    fn open_file(&mut self, name: &str) -> Opening {
        self.files.open_file(name)
    }

    fn pull(&mut self, buf: &mut [u8]) -> Result<usize, Failed> {
        let pulled = self.files.pull(buf);
        if let Ok(count) = &pulled {
            self.advance(*count);
        }
        pulled
    }
}

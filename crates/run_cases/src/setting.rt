//! What stands before a run.

use cases::{number, size, word};
use rt_outside::{MemoryFiles, MemorySink};
use std::alloc::{AllocError, Global};
use std::mem;

#[derive(Drop)]
struct NamedFile {
    name: String,
    bytes: Vec<u8>,
}

// The room of a sink, and the calls of it that are to fail.
#[derive(Drop)]
struct Plan {
    room: usize,
    failing: Vec<u64>,
}

/// How the files give their bytes.
#[derive(Clone, Copy, Drop)]
pub enum Giving {
    /// As many as are asked for.
    AsAsked,
    /// One at each pull.
    Dripping,
    /// Without an end, whatever the name is.
    Endless,
}

/// Files, of which those before the first case stay, a moment, and the calls that are to fail.
#[derive(Drop)]
pub struct Setting {
    alloc: Global,
    files: Vec<NamedFile>,
    kept: Option<usize>,
    failing: Vec<u64>,
    out: Plan,
    err: Plan,
    pub moment: u64,
    pub giving: Giving,
}

const ROOM: usize = 1_000_000;

impl Plan {
    fn new(alloc: Global) -> Plan {
        Plan {
            room: ROOM,
            failing: Vec::new(alloc),
        }
    }

    fn begin(&mut self) {
        self.room = ROOM;
        self.failing.clear();
    }

    fn sink(&self, alloc: Global) -> Result<MemorySink, AllocError> {
        let mut sink = MemorySink::new(alloc, self.room)?;
        for call in &self.failing {
            sink.fail_at(*call)?;
        }
        Ok(sink)
    }
}

impl Setting {
    /// No files, the moment 0, and no call that is to fail.
    pub fn new(alloc: Global) -> Setting {
        Setting {
            alloc,
            files: Vec::new(alloc),
            kept: None,
            failing: Vec::new(alloc),
            out: Plan::new(alloc),
            err: Plan::new(alloc),
            moment: 0,
            giving: Giving::AsAsked,
        }
    }

    /// A case begins: files of earlier cases go, and no call is to fail.
    pub fn begin(&mut self) {
        match self.kept {
            Some(kept) => self.files.truncate(kept),
            None => self.kept = Some(self.files.len()),
        }
        self.clear_faults();
        self.giving = Giving::AsAsked;
    }

    /// No call is to fail, and the sinks have much room.
    pub fn clear_faults(&mut self) {
        self.failing.clear();
        self.out.begin();
        self.err.begin();
    }

    fn put(&mut self, name: &str, bytes: Vec<u8>) -> Result<(), AllocError> {
        let name = String::from_str(self.alloc, name)?;
        self.files.push(NamedFile { name, bytes })?;
        Ok(())
    }

    /// Puts what a run wrote under a name.
    pub fn put_written(&mut self, name: &str, written: &mut Vec<u8>) -> Result<(), AllocError> {
        self.put(name, mem::replace(written, Vec::new(self.alloc)))
    }

    fn fail(&mut self, what: &str, call: u64) -> Result<(), AllocError> {
        match what {
            "out" => self.out.failing.push(call)?,
            "err" => self.err.failing.push(call)?,
            _ => self.failing.push(call)?,
        }
        Ok(())
    }

    /// This call of the files, or of a sink, is to fail, and no other.
    pub fn fail_alone(&mut self, what: &str, call: u64) -> Result<(), AllocError> {
        self.clear_faults();
        self.fail(what, call)
    }

    /// A sink has room for so many bytes.
    pub fn limit(&mut self, what: &str, room: usize) {
        if what == "err" {
            self.err.room = room;
        } else {
            self.out.room = room;
        }
    }

    /// Takes `file NAME`, `now MOMENT`, `fail files|out|err CALL`, `room out|err BYTES`, `drip` and `endless`.
    pub fn take(&mut self, words: &[String], given: &[u8]) -> Result<bool, AllocError> {
        match word(words, 0) {
            "file" => self.put(word(words, 1), Vec::from_slice(self.alloc, given)?)?,
            "now" => self.moment = number(words, 1),
            "fail" => self.fail(word(words, 1), number(words, 2))?,
            "room" => self.limit(word(words, 1), size(words, 2)),
            "drip" => self.giving = Giving::Dripping,
            "endless" => self.giving = Giving::Endless,
            _ => return Ok(false),
        }
        Ok(true)
    }

    /// The files, no call of which was made.
    pub fn files(&self) -> Result<MemoryFiles, AllocError> {
        let mut files = MemoryFiles::new(self.alloc);
        for file in &self.files {
            files.add(file.name.as_str(), &file.bytes)?;
        }
        for call in &self.failing {
            files.fail_at(*call)?;
        }
        Ok(files)
    }

    /// The output, to which nothing was written.
    pub fn out(&self) -> Result<MemorySink, AllocError> {
        self.out.sink(self.alloc)
    }

    /// The error stream, to which nothing was written.
    pub fn err(&self) -> Result<MemorySink, AllocError> {
        self.err.sink(self.alloc)
    }
}

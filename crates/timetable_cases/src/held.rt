//! The files of a case, and the calls that fail.

use cases::{number, word};
use rt_outside::{MemoryFiles, MemorySink, QuietFiles};
use std::alloc::{AllocError, Global};

#[derive(Drop)]
struct NamedFile {
    name: String,
    bytes: Vec<u8>,
}

/// Files by name, of which those before the first case stay, the names of those that are absent, and the numbers of the calls that
/// fail.
#[derive(Drop)]
pub struct Held {
    alloc: Global,
    files: Vec<NamedFile>,
    kept: Option<usize>,
    absent: Vec<String>,
    failing: Vec<u64>,
}

impl Held {
    pub fn new(alloc: Global) -> Held {
        Held {
            alloc,
            files: Vec::new(alloc),
            kept: None,
            absent: Vec::new(alloc),
            failing: Vec::new(alloc),
        }
    }

    /// Forgets the files and calls of the case before.
    pub fn begin(&mut self) {
        match self.kept {
            Some(kept) => self.files.truncate(kept),
            None => self.kept = Some(self.files.len()),
        }
        self.absent.clear();
        self.failing.clear();
    }

    fn put(&mut self, name: &str, bytes: &[u8]) -> Result<(), AllocError> {
        let name = String::from_str(self.alloc, name)?;
        let bytes = Vec::from_slice(self.alloc, bytes)?;
        self.files.push(NamedFile { name, bytes })?;
        Ok(())
    }

    /// Takes `file NAME`, whose bytes are given, `no-file NAME` and `fail CALL`.
    pub fn take(&mut self, words: &[String], given: &[u8]) -> Result<bool, AllocError> {
        match word(words, 0) {
            "file" => self.put(word(words, 1), given)?,
            "no-file" => {
                let name = String::from_str(self.alloc, word(words, 1))?;
                self.absent.push(name)?;
            }
            "fail" => self.failing.push(number(words, 1))?,
            _ => return Ok(false),
        }
        Ok(true)
    }

    fn is_absent(&self, name: &str) -> bool {
        for absent in &self.absent {
            if absent.as_str() == name {
                return true;
            }
        }
        false
    }

    /// The files in memory, of which no call was made.
    pub fn files(&self) -> Result<MemoryFiles, AllocError> {
        let mut files = MemoryFiles::new(self.alloc);
        for file in &self.files {
            if !self.is_absent(file.name.as_str()) {
                files.add(file.name.as_str(), &file.bytes)?;
            }
        }
        for call in &self.failing {
            files.fail_at(*call)?;
        }
        Ok(files)
    }

    /// The same files, of which no call fails.
    pub fn quiet_files(&self) -> Result<QuietFiles, AllocError> {
        let mut files = QuietFiles::new(self.alloc);
        for file in &self.files {
            if !self.is_absent(file.name.as_str()) {
                files.add(file.name.as_str(), &file.bytes)?;
            }
        }
        Ok(files)
    }

    /// A sink with so much room, of which the same calls fail.
    pub fn sink(&self, room: usize) -> Result<MemorySink, AllocError> {
        let mut sink = MemorySink::new(self.alloc, room)?;
        for call in &self.failing {
            sink.fail_at(*call)?;
        }
        Ok(sink)
    }
}

//! What asks are about.

use cases::{say, say_some, word};
use rt_outside::QuietFiles;
use std::alloc::{AllocError, Global};
use timetable::Timetable;
use trip_calendar::{Zone, ZoneFault};

/// A timetable, which stands before the first case of a text, and the zone of a case.
#[derive(Drop)]
pub struct Setting {
    alloc: Global,
    files: QuietFiles,
    table: Box<Timetable>,
    zone: Option<Box<Zone>>,
}

impl Setting {
    pub fn new(alloc: Global) -> Result<Setting, AllocError> {
        Ok(Setting {
            alloc,
            files: QuietFiles::new(alloc),
            table: Box::new(alloc, Timetable::absent(alloc))?,
            zone: None,
        })
    }

    /// Forgets the zone of the case before.
    pub fn begin(&mut self) {
        self.zone = None;
    }

    pub fn table(&self) -> &Timetable {
        &self.table
    }

    pub fn zone(&self) -> Option<&Zone> {
        match &self.zone {
            Some(zone) => Some(zone),
            None => None,
        }
    }

    fn load(&mut self, folder: &str, out: &mut Vec<u8>) -> Result<(), AllocError> {
        match Timetable::load(self.alloc, &mut self.files, folder) {
            Ok(table) => {
                self.table = Box::new(self.alloc, table)?;
                Ok(())
            }
            Err(fault) => say(out, format!(in self.alloc; "{fault:?}")?.as_str()),
        }
    }

    fn keep(&mut self, zone: Result<Zone, ZoneFault>, out: &mut Vec<u8>) -> Result<(), AllocError> {
        match zone {
            Ok(zone) => {
                self.zone = Some(Box::new(self.alloc, zone)?);
                Ok(())
            }
            Err(fault) => say_some(self.alloc, out, Some(fault)),
        }
    }

    /// Takes `file NAME`, whose bytes are given, `timetable FOLDER`, `zone RULE`, and `zone-file`, whose bytes are given. Where a
    /// timetable or a zone is refused, this is answered.
    pub fn take(
        &mut self,
        words: &[String],
        given: &[u8],
        out: &mut Vec<u8>,
    ) -> Result<bool, AllocError> {
        match word(words, 0) {
            "file" => self.files.add(word(words, 1), given)?,
            "timetable" => self.load(word(words, 1), out)?,
            "zone" => self.keep(Zone::from_rule(self.alloc, word(words, 1)), out)?,
            "zone-file" => self.keep(Zone::from_file_bytes(self.alloc, given), out)?,
            _ => return Ok(false),
        }
        Ok(true)
    }
}

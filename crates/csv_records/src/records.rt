//! The records of a CSV file in memory, one after the other.
//!
//! `csv` reads them with its default marks: fields between commas, quotes that double themselves, lines
//! that end with LF, CR or CRLF; empty lines are no records. Nothing is trimmed, records may have any
//! number of fields, and the first one is a record like any other. `csv` itself drops one byte order
//! mark at the start. (RFC 4180, section 2.)

ghost use Rattle.std.specs.Prelude.{◌≡◌, ◌≤◌, ◌+◌, length, [], ◌∷◌, true, false, IfOk, OnErr};
ghost use Rattle.csv.specs.Records.{fields_of};
ghost use Rattle.csv_records.specs.Records.{records_of};

use csv::{ByteRecord, Reader, ReaderBuilder};
use std::alloc::{AllocError, Global};
use std::marker::Model;

/// The records that are left of a file in memory.
#[derive(Drop)]
pub struct Records<'a> {
    reader: Reader<&'a [u8]>,
    ended: bool,
}

impl<'a> Model for Records<'a> {
    ghost use Rattle.std.specs.Prelude.{List};
    ghost use Rattle.csv_records.specs.Records.{Record};

    ghost Value = { List Record };

    ghost use Rattle.csv_records.specs.Reading.{IsRecords, records_view};

    ghost view = { records_view };

    ghost invariant = { IsRecords };
}

impl<'a> Records<'a> {
    /// All records of `bytes`.
    pub fn new(alloc: Global, bytes: &'a [u8]) -> Records<'a>
        ensures records { result ≡ records_of bytes.now }
        ensures few { length (records_of bytes.now) ≤ length bytes.now + 1 }
    {
        let reader = ReaderBuilder::new()
            .has_headers(false)
            .flexible(true)
            .from_reader(alloc, bytes);
        Records {
            reader,
            ended: false,
        }
    }

    /// Reads the next record into `row`, whose memory each record uses again, and tells whether there was one. The one
    /// error is want of memory, and after it no record is left.
    pub fn next(&mut self, row: &mut ByteRecord) -> Result<bool, AllocError>
        ensures row { IfOk result (λ found. found ≡ true → self.old ≡ fields_of row.new ∷ self.new) }
        ensures end { IfOk result (λ found. found ≡ false → self.old ≡ []) }
        ensures ended { IfOk result (λ found. found ≡ false → self.new ≡ []) }
        ensures err { OnErr result (self.new ≡ []) }
    {
        if self.ended {
            return Ok(false);
        }
        let Ok(found) = self.reader.read_byte_record(row) else {
            self.ended = true;
            return Err(AllocError);
        };
        self.ended = !found;
        Ok(found)
    }
}

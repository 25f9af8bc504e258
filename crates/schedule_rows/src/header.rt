//! The header row of a file.

ghost use Rattle.std.specs.Prelude.{◌≡◌};
ghost use Rattle.csv.specs.Records.{fields_of};
ghost use Rattle.schedule_rows.specs.Columns.{name_of};
ghost use Rattle.schedule_rows.specs.Fields.{place_of};

use crate::column::Column;
use crate::field::find_place;
use csv::ByteRecord;
use std::marker::Model;

/// A header row that knows where each column stands. Contracts see it as the row.
#[derive(Drop)]
pub struct Header {
    names: ByteRecord,
    places: [Option<usize>; 25],
}

impl Model for Header {
    ghost use Rattle.csv_records.specs.Records.{Record};

    ghost Value = { Record };

    ghost use Rattle.csv.specs.Records.{fields_of};
    ghost use Rattle.schedule_rows.specs.Headers.{HasPlaces};

    ghost view = { λ header. fields_of header.names };

    ghost invariant = { λ header. HasPlaces (fields_of header.names) header.places };
}

impl Header {
    pub fn new(names: ByteRecord) -> Header
        ensures { result ≡ fields_of names }
    {
        let mut places = [None; 25];
        for at in 0..25 {
            places[at] = find_place(&names, Column::ALL[at].name().as_bytes());
        }
        Header { names, places }
    }

    /// Where a column stands: the first of a repeated name.
    pub fn place(&self, column: Column) -> Option<usize>
        ensures { result ≡ place_of (name_of column) self.now }
    {
        self.places[column.number()]
    }
}

//! The cells of a row, found by their columns.

ghost use Rattle.std.specs.Prelude.{◌≡◌, ◌≢◌, Ok, Err, IfOk, IfErr, List, ℕ, Result, IsTrue, option_map, option_copied};
ghost use Rattle.csv.specs.Records.{fields_of};
ghost use Rattle.schedule_rows.specs.Cells.{any_text, cell, cells_of, filled};
ghost use Rattle.csv_records.specs.Results.{ok_or};
ghost use Rattle.csv_records.specs.Texts.{text_of as text_in};
ghost use Rattle.csv_records.specs.Texts.{texts};
ghost use Rattle.schedule_rows.specs.declared.cell_fault.CellFault.TheVariants as fault;

use crate::cell_fault::CellFault;
use crate::column::Column;
use crate::field::field_in;
use crate::header::Header;
use crate::id::Id;
use crate::value::Value;
use csv::ByteRecord;
use csv_records::text_of;
use std::alloc::Global;

/// A row under its header.
#[derive(Clone, Copy, Drop)]
pub struct Cells<'a> {
    pub header: &'a Header,
    pub row: &'a ByteRecord,
}

impl<'a> Cells<'a> {
    fn field(&self, column: Column) -> &'a [u8]
        ensures { result.now ≡ cells_of self.now.header.now (fields_of self.now.row.now) column }
    {
        field_in(self.row, self.header.place(column))
    }

    fn text(&self, column: Column) -> Result<&'a str, CellFault>
        ensures { texts result
            ≡ ok_or (text_in (cells_of self.now.header.now (fields_of self.now.row.now) column)) fault.NotText }
    {
        match text_of(self.field(column)) {
            Some(text) => Ok(text),
            None => Err(CellFault::NotText),
        }
    }

    /// The value of a cell.
    pub fn value<V: Value>(&self, column: Column) -> Result<V, CellFault>
        ensures { result ≡ cell V.value_of column (cells_of self.now.header.now (fields_of self.now.row.now)) }
    {
        let text = match self.text(column) {
            Ok(text) => text,
            Err(fault) => return Err(fault),
        };
        match V::parse(text) {
            Some(value) => Ok(value),
            None => Err(CellFault::BadValue(column)),
        }
    }

    /// The id of a cell, which may be blank.
    pub fn id(&self, alloc: Global, column: Column) -> Result<Id, CellFault>
        ensures ok { IfOk result (λ id.
            cell any_text column (cells_of self.now.header.now (fields_of self.now.row.now)) ≡ Ok id) }
        ensures err { IfErr result (λ e. e ≢ fault.Memory
            → cell any_text column (cells_of self.now.header.now (fields_of self.now.row.now)) ≡ Err e) }
    {
        match self.text(column) {
            Ok(text) => Ok(Id::new(alloc, text)?),
            Err(fault) => Err(fault),
        }
    }

    /// The id of a cell, which may not be blank.
    pub fn filled_id(&self, alloc: Global, column: Column) -> Result<Id, CellFault>
        ensures ok { IfOk result (λ id.
            cell filled column (cells_of self.now.header.now (fields_of self.now.row.now)) ≡ Ok id) }
        ensures err { IfErr result (λ e. e ≢ fault.Memory
            → cell filled column (cells_of self.now.header.now (fields_of self.now.row.now)) ≡ Err e) }
    {
        let text = match self.text(column) {
            Ok(text) => text,
            Err(fault) => return Err(fault),
        };
        if text.is_empty() {
            return Err(CellFault::BadValue(column));
        }
        Ok(Id::new(alloc, text)?)
    }
}

//! Rows of a file, as they are read.

ghost use Rattle.std.specs.Prelude.{◌≡◌, ◌≢◌, Ok, Err, IfOk, IfErr, Result};

use crate::cell_fault::CellFault;
use crate::cells::Cells;
use crate::file::File;
use crate::id::Id;
use std::alloc::Global;

/// A row: an id, and what the file says of it.
#[derive(Drop)]
pub struct Row<I> {
    pub id: Id,
    pub item: I,
}

/// What a file says of an id.
pub trait Item: Sized {
    ghost use Rattle.std.specs.Prelude.{◌≡◌, ◌≢◌, Ok, Err, IfOk, IfErr, Result};
    ghost use Rattle.csv.specs.Records.{fields_of};
    ghost use Rattle.schedule_rows.specs.Cells.{Cells, cells_of};
    ghost use Rattle.schedule_rows.specs.declared.cell_fault.CellFault.{CellFault};
    ghost use Rattle.schedule_rows.specs.declared.cell_fault.CellFault.TheVariants as fault;
    ghost use Rattle.schedule_rows.specs.declared.file.File.{File};
    ghost use Rattle.schedule_rows.specs.declared.row.Row.{Row};

    ghost source: { File };

    ghost row_of: { Cells → Result (Row Self) CellFault };

    /// The file that the rows are of.
    fn file() -> File
        ensures { result ≡ source };

    /// Reads the cells of a row, in the order of the file's columns.
    fn read(alloc: Global, cells: &Cells<'_>) -> Result<Row<Self>, CellFault>
        ensures ok { IfOk result (λ row. row_of (cells_of cells.now.header.now (fields_of cells.now.row.now)) ≡ Ok row) }
        ensures err { IfErr result (λ e. e ≢ fault.Memory
            → row_of (cells_of cells.now.header.now (fields_of cells.now.row.now)) ≡ Err e) };
}

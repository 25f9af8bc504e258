//! Files that become tables.

ghost use Rattle.std.specs.Prelude.{◌≡◌, ◌≢◌, ◌∷◌, ◌+◌, ◌<◌, ◌^◌, length, List, Ok, Err, IfOk, IfErr, OnOk};
ghost use Rattle.csv.specs.Records.{fields_of};
ghost use Rattle.csv_records.specs.Records.{Record};
ghost use Rattle.schedule_tables.specs.Tables.{absent_table, at_row, missing_column, rows_from, table_in, table_of_records, table_under, without_mark};
ghost use Rattle.schedule_tables.specs.declared.fault.LoadFault.TheVariants as fault;

use crate::fault::LoadFault;
use crate::grouped::{Group, Grouped};
use csv::ByteRecord;
use csv_records::Records;
use schedule_rows::{CellFault, Cells, Column, File, Header, Item, Row};
use std::alloc::{AllocError, Global};

/// A byte order mark.
const MARK: &[u8] = b"\xEF\xBB\xBF";

/// A table that a file fills row by row.
pub(crate) trait Table: Sized {
    ghost use Rattle.std.specs.Prelude.{◌≡◌, ◌≢◌, Ok, Err, IfOk, IfErr, Some, None, if◌then◌else◌};
    ghost use Rattle.csv.specs.Records.{fields_of};
    ghost use Rattle.schedule_rows.specs.Cells.{cells_of};
    ghost use Rattle.schedule_tables.specs.Tables.{Format};
    ghost use Rattle.schedule_rows.specs.declared.cell_fault.CellFault.TheVariants as in_cell;

    type Row;

    ghost format: { Format Self.Row Self };

    /// How many ids there are, 0 where a table after it has others. That may save memory, and no clause speaks of it.
    fn ids(&self) -> usize {
        0
    }

    /// The file that fills the table.
    fn file() -> File
        ensures { result ≡ format.file };

    /// The table without rows.
    fn empty(alloc: Global) -> Self
        ensures { result ≡ format.empty };

    /// The table without rows, where so many ids are awaited. That may save memory, and no clause speaks of it.
    fn awaiting(alloc: Global, _ids: usize) -> Result<Self, AllocError>
        ensures { IfOk result (λ table. table ≡ format.empty) }
    {
        Ok(Self::empty(alloc))
    }

    /// Reads the cells of a row, in the order of the file's columns.
    fn read(alloc: Global, cells: &Cells<'_>) -> Result<Self::Row, CellFault>
        ensures ok { IfOk result (λ row. format.row_of (cells_of cells.now.header.now (fields_of cells.now.row.now)) ≡ Ok row) }
        ensures err { IfErr result (λ e. e ≢ in_cell.Memory
            → format.row_of (cells_of cells.now.header.now (fields_of cells.now.row.now)) ≡ Err e) };

    /// Adds a row, unless its key stood before, and tells whether it was new.
    fn put(&mut self, alloc: Global, row: Self::Row) -> Result<bool, AllocError>
        ensures { IfOk result (λ new. format.added self.old row ≡ (if new then Some self.new else None)) };
}

impl<G: Group + Drop> Table for Grouped<G>
where
    G::Item: Item,
{
    ghost use Rattle.std.specs.FinMap as map;
    ghost use Rattle.schedule_tables.specs.Maps.{put_under};

    type Row = Row<G::Item>;

    ghost format = { record {
      file = G.Item.source;
      row_of = G.Item.row_of;
      empty = map.empty;
      added = λ groups row. put_under G.grouping groups row.id row.item;
    } };

    fn file() -> File {
        G::Item::file()
    }

    fn empty(alloc: Global) -> Grouped<G> {
        Grouped::new(alloc)
    }

    fn read(alloc: Global, cells: &Cells<'_>) -> Result<Row<G::Item>, CellFault> {
        G::Item::read(alloc, cells)
    }

    fn put(&mut self, alloc: Global, row: Row<G::Item>) -> Result<bool, AllocError> {
        Grouped::put(self, alloc, row.id, row.item)
    }
}

/// A row's fault, with its file and its number.
fn at_row(file: File, number: u64, fault: CellFault) -> LoadFault
    ensures { result ≡ at_row file number fault }
{
    match fault {
        CellFault::NotText => LoadFault::BadText(file, number),
        CellFault::BadValue(column) => LoadFault::BadValue(file, number, column),
        CellFault::Memory => LoadFault::Memory,
    }
}

/// The first required column that the header lacks.
fn missing_column(file: File, header: &Header) -> Option<Column>
    ensures { result ≡ missing_column file header.now }
{
    file.columns().iter().copied().find(|column| column.is_required()
        && header.place(*column).is_none())
}

fn add_row<T: Table>(
    alloc: Global,
    table: &mut T,
    number: u64,
    cells: &Cells<'_>,
) -> Result<(), LoadFault>
    ensures ok { OnOk result ((rest : List Record)
        → rows_from T.format cells.now.header.now number table.old (fields_of cells.now.row.now ∷ rest)
        ≡ rows_from T.format cells.now.header.now (number + 1) table.new rest) }
    ensures err { IfErr result (λ e. e ≢ fault.Memory → (rest : List Record)
        → rows_from T.format cells.now.header.now number table.old (fields_of cells.now.row.now ∷ rest) ≡ Err e) }
{
    let row = match T::read(alloc, cells) {
        Ok(row) => row,
        Err(fault) => return Err(at_row(T::file(), number, fault)),
    };
    if !table.put(alloc, row)? {
        return Err(LoadFault::RepeatedKey(T::file(), number));
    }
    Ok(())
}

fn without_mark(bytes: &[u8]) -> &[u8]
    ensures { result.now ≡ without_mark bytes.now }
{
    if bytes.starts_with(MARK) {
        &bytes[MARK.len()..]
    } else {
        bytes
    }
}

/// Reads the rows below a header.
fn read_rows<T: Table + Drop>(
    alloc: Global,
    header: &Header,
    rows: &mut Records<'_>,
    awaited: usize,
) -> Result<T, LoadFault>
    requires { length rows.old < 2 ^ 63 + 1 }
    ensures ok { IfOk result (λ table. rows_from T.format header.now 2 T.format.empty rows.old ≡ Ok table) }
    ensures err { IfErr result (λ e. e ≢ fault.Memory → rows_from T.format header.now 2 T.format.empty rows.old ≡ Err e) }
{
    let mut table = T::awaiting(alloc, awaited)?;
    let mut row = ByteRecord::new(alloc);
    let mut number = 2;
    while rows.next(&mut row)? {
        let cells = Cells { header, row: &row };
        add_row(alloc, &mut table, number, &cells)?;
        number += 1;
    }
    Ok(table)
}

/// Reads a file below its header.
fn read_under<T: Table + Drop>(
    alloc: Global,
    header: &Header,
    rows: &mut Records<'_>,
    awaited: usize,
) -> Result<T, LoadFault>
    requires { length rows.old < 2 ^ 63 + 1 }
    ensures ok { IfOk result (λ table. table_under T.format header.now rows.old ≡ Ok table) }
    ensures err { IfErr result (λ e. e ≢ fault.Memory → table_under T.format header.now rows.old ≡ Err e) }
{
    if let Some(column) = missing_column(T::file(), header) {
        return Err(LoadFault::MissingColumn(T::file(), column));
    }
    read_rows(alloc, header, rows, awaited)
}

/// Reads the records of a file, of which the first is its header.
fn read_records<T: Table + Drop>(
    alloc: Global,
    rows: &mut Records<'_>,
    awaited: usize,
) -> Result<T, LoadFault>
    requires { length rows.old < 2 ^ 63 + 1 }
    ensures ok { IfOk result (λ table. table_of_records T.format rows.old ≡ Ok table) }
    ensures err { IfErr result (λ e. e ≢ fault.Memory → table_of_records T.format rows.old ≡ Err e) }
{
    let mut names = ByteRecord::new(alloc);
    if !rows.next(&mut names)? {
        names.clear();
    }
    read_under(alloc, &Header::new(names), rows, awaited)
}

/// Reads a file that is held in memory, where `awaited` ids are awaited.
pub(crate) fn read_table<T: Table + Drop>(
    alloc: Global,
    bytes: &[u8],
    awaited: usize,
) -> Result<T, LoadFault>
    ensures ok { IfOk result (λ table. table_in T.format bytes.now ≡ Ok table) }
    ensures err { IfErr result (λ e. e ≢ fault.Memory → table_in T.format bytes.now ≡ Err e) }
{
    let mut rows = Records::new(alloc, without_mark(bytes));
    read_records(alloc, &mut rows, awaited)
}

/// The table of a file that is absent.
pub(crate) fn absent_table<T: Table + Drop>(alloc: Global) -> Result<T, LoadFault>
    ensures { result ≡ absent_table T.format }
{
    if T::file().is_required() {
        return Err(LoadFault::MissingFile(T::file()));
    }
    Ok(T::empty(alloc))
}

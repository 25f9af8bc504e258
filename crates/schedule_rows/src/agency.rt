//! An agency of agency.txt.

use crate::cell_fault::CellFault;
use crate::cells::Cells;
use crate::column::Column;
use crate::file::File;
use crate::row::{Item, Row};
use std::alloc::Global;

/// An agency, of which the id alone is kept.
#[derive(Clone, Copy)]
pub struct Agency {}

impl Item for Agency {
    ghost use Rattle.schedule_rows.specs.declared.file.File.TheVariants as file;
    ghost use Rattle.schedule_rows.specs.Items.{agency_row};

    ghost source = { file.Agency };

    ghost row_of = { agency_row };

    fn file() -> File {
        File::Agency
    }

    fn read(alloc: Global, cells: &Cells<'_>) -> Result<Row<Agency>, CellFault> {
        let id = cells.id(alloc, Column::AgencyId)?;
        Ok(Row {
            id,
            item: Agency {},
        })
    }
}

//! A row of calendar_dates.txt.

use crate::cell_fault::CellFault;
use crate::cells::Cells;
use crate::change::Change;
use crate::column::Column;
use crate::file::File;
use crate::row::{Item, Row};
use rt_day::Day;
use std::alloc::Global;

/// A day that is added to a service, or removed from it.
#[derive(Clone, Copy)]
pub struct Exception {
    pub day: Day,
    pub added: bool,
}

impl Item for Exception {
    ghost use Rattle.schedule_rows.specs.declared.file.File.TheVariants as file;
    ghost use Rattle.schedule_rows.specs.Items.{exception_row};

    ghost source = { file.CalendarDates };

    ghost row_of = { exception_row };

    fn file() -> File {
        File::CalendarDates
    }

    fn read(alloc: Global, cells: &Cells<'_>) -> Result<Row<Exception>, CellFault> {
        let id = cells.id(alloc, Column::ServiceId)?;
        let day = cells.value(Column::Date)?;
        let Change(added) = cells.value(Column::ExceptionType)?;
        Ok(Row {
            id,
            item: Exception { day, added },
        })
    }
}

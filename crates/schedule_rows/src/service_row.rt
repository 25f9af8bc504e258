//! A service of calendar.txt.

ghost use Rattle.std.specs.Prelude.{◌≡◌, ◌≤◌, ◌<◌, ◌+◌, length};
ghost use Rattle.csv.specs.Records.{fields_of};
ghost use Rattle.schedule_rows.specs.Cells.{cells_of};
ghost use Rattle.schedule_rows.specs.Items.{weekdays_from, with_bit};

use crate::cell_fault::CellFault;
use crate::cells::Cells;
use crate::column::Column;
use crate::file::File;
use crate::flag::Flag;
use crate::row::{Item, Row};
use rt_day::Day;
use std::alloc::Global;

/// The days of a service: its weekdays, from the first day to the last, both included.
///
/// Bit 0 of `weekdays` is Monday and bit 6 is Sunday.
#[derive(Clone, Copy)]
pub struct ServiceRow {
    pub weekdays: u8,
    pub first: Day,
    pub last: Day,
}

/// The bits so far, with the next one where the service runs on its day.
fn with_bit(done: u8, bit: u8, runs: bool) -> u8
    requires { done + bit < 256 }
    ensures { result ≡ with_bit done bit runs }
{
    if runs { done + bit } else { done }
}

fn weekdays(cells: &Cells<'_>, days: &[Column]) -> Result<u8, CellFault>
    requires { length days.now ≤ 7 }
    ensures { result ≡ weekdays_from days.now 1 0 (cells_of cells.now.header.now (fields_of cells.now.row.now)) }
{
    let mut done = 0;
    let mut bit = 1;
    for day in days {
        let Flag(runs) = cells.value(*day)?;
        done = with_bit(done, bit, runs);
        bit *= 2;
    }
    Ok(done)
}

impl Item for ServiceRow {
    ghost use Rattle.schedule_rows.specs.declared.file.File.TheVariants as file;
    ghost use Rattle.schedule_rows.specs.Items.{service_row};

    ghost source = { file.Calendar };

    ghost row_of = { service_row };

    fn file() -> File {
        File::Calendar
    }

    fn read(alloc: Global, cells: &Cells<'_>) -> Result<Row<ServiceRow>, CellFault> {
        let id = cells.filled_id(alloc, Column::ServiceId)?;
        let weekdays = weekdays(cells, &Column::WEEKDAYS)?;
        let first = cells.value(Column::StartDate)?;
        let last = cells.value(Column::EndDate)?;
        Ok(Row {
            id,
            item: ServiceRow {
                weekdays,
                first,
                last,
            },
        })
    }
}

//! A row of frequencies.txt.

use crate::cell_fault::CellFault;
use crate::cells::Cells;
use crate::column::Column;
use crate::file::File;
use crate::flag::Flag;
use crate::headway::Headway;
use crate::row::{Item, Row};
use crate::time::Time;
use std::alloc::Global;

/// Departures of a trip from `start` to `end`, `headway` seconds apart.
///
/// Both are seconds from the service day's origin. `exact` is the flag exact_times.
#[derive(Clone, Copy)]
pub struct Frequency {
    pub start: u32,
    pub end: u32,
    pub headway: u32,
    pub exact: bool,
}

impl Item for Frequency {
    ghost use Rattle.schedule_rows.specs.declared.file.File.TheVariants as file;
    ghost use Rattle.schedule_rows.specs.Items.{frequency_row};

    ghost source = { file.Frequencies };

    ghost row_of = { frequency_row };

    fn file() -> File {
        File::Frequencies
    }

    fn read(alloc: Global, cells: &Cells<'_>) -> Result<Row<Frequency>, CellFault> {
        let id = cells.id(alloc, Column::TripId)?;
        let start = cells.value::<Time>(Column::StartTime)?.seconds();
        let end = cells.value::<Time>(Column::EndTime)?.seconds();
        let Headway(headway) = cells.value(Column::HeadwaySecs)?;
        let exact = match cells.value::<Option<Flag>>(Column::ExactTimes)? {
            Some(Flag(exact)) => exact,
            None => false,
        };
        Ok(Row {
            id,
            item: Frequency {
                start,
                end,
                headway,
                exact,
            },
        })
    }
}

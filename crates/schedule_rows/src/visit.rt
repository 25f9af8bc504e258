//! A row of stop_times.txt.

use crate::cell_fault::CellFault;
use crate::cells::Cells;
use crate::column::Column;
use crate::file::File;
use crate::id::Id;
use crate::optional_time::OptionalTime;
use crate::row::{Item, Row};
use crate::sequence::Sequence;
use std::alloc::Global;

/// A row of stop_times.txt apart from its trip.
#[derive(Drop)]
pub struct Visit {
    pub stop: Id,
    pub sequence: u32,
    pub arrival: OptionalTime,
    pub departure: OptionalTime,
}

impl Item for Visit {
    ghost use Rattle.schedule_rows.specs.declared.file.File.TheVariants as file;
    ghost use Rattle.schedule_rows.specs.Items.{visit_row};

    ghost source = { file.StopTimes };

    ghost row_of = { visit_row };

    fn file() -> File {
        File::StopTimes
    }

    fn read(alloc: Global, cells: &Cells<'_>) -> Result<Row<Visit>, CellFault> {
        let id = cells.id(alloc, Column::TripId)?;
        let arrival = OptionalTime::new(cells.value(Column::ArrivalTime)?);
        let departure = OptionalTime::new(cells.value(Column::DepartureTime)?);
        let stop = cells.id(alloc, Column::StopId)?;
        let Sequence(sequence) = cells.value(Column::StopSequence)?;
        Ok(Row {
            id,
            item: Visit {
                stop,
                sequence,
                arrival,
                departure,
            },
        })
    }
}

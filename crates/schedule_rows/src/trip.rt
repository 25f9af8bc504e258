//! A trip of trips.txt.

use crate::cell_fault::CellFault;
use crate::cells::Cells;
use crate::column::Column;
use crate::file::File;
use crate::flag::Flag;
use crate::row::{Item, Row};
use crate::shared_ids::SharedId;
use std::alloc::Global;

/// A trip, with its route, its service, and its direction where that is given.
#[derive(Drop)]
pub struct Trip {
    pub route: SharedId,
    pub service: SharedId,
    pub direction: Option<u32>,
}

impl Item for Trip {
    ghost use Rattle.schedule_rows.specs.declared.file.File.TheVariants as file;
    ghost use Rattle.schedule_rows.specs.Items.{trip_row};

    ghost source = { file.Trips };

    ghost row_of = { trip_row };

    fn file() -> File {
        File::Trips
    }

    fn read(alloc: Global, cells: &Cells<'_>) -> Result<Row<Trip>, CellFault> {
        let route = SharedId::new(cells.id(alloc, Column::RouteId)?)?;
        let service = SharedId::new(cells.id(alloc, Column::ServiceId)?)?;
        let id = cells.filled_id(alloc, Column::TripId)?;
        let direction = match cells.value::<Option<Flag>>(Column::DirectionId)? {
            Some(Flag(direction)) => Some(direction as u32),
            None => None,
        };
        Ok(Row {
            id,
            item: Trip {
                route,
                service,
                direction,
            },
        })
    }
}

//! A stop of stops.txt.

use crate::cell_fault::CellFault;
use crate::cells::Cells;
use crate::column::Column;
use crate::file::File;
use crate::location_type::LocationType;
use crate::row::{Item, Row};
use std::alloc::Global;

/// A stop, with the number of its kind in location_type.
#[derive(Clone, Copy)]
pub struct Stop {
    pub kind: u32,
}

impl Item for Stop {
    ghost use Rattle.schedule_rows.specs.declared.file.File.TheVariants as file;
    ghost use Rattle.schedule_rows.specs.Items.{stop_row};

    ghost source = { file.Stops };

    ghost row_of = { stop_row };

    fn file() -> File {
        File::Stops
    }

    fn read(alloc: Global, cells: &Cells<'_>) -> Result<Row<Stop>, CellFault> {
        let id = cells.filled_id(alloc, Column::StopId)?;
        let kind = match cells.value::<Option<LocationType>>(Column::LocationType)? {
            Some(LocationType(kind)) => kind,
            None => 0,
        };
        Ok(Row {
            id,
            item: Stop { kind },
        })
    }
}

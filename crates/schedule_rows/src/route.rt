//! A route of routes.txt.

use crate::cell_fault::CellFault;
use crate::cells::Cells;
use crate::column::Column;
use crate::file::File;
use crate::row::{Item, Row};
use std::alloc::Global;

/// A route, of which the id alone is kept.
#[derive(Clone, Copy)]
pub struct Route {}

impl Item for Route {
    ghost use Rattle.schedule_rows.specs.declared.file.File.TheVariants as file;
    ghost use Rattle.schedule_rows.specs.Items.{route_row};

    ghost source = { file.Routes };

    ghost row_of = { route_row };

    fn file() -> File {
        File::Routes
    }

    fn read(alloc: Global, cells: &Cells<'_>) -> Result<Row<Route>, CellFault> {
        let id = cells.filled_id(alloc, Column::RouteId)?;
        Ok(Row { id, item: Route {} })
    }
}

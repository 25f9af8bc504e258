//! The trips of trips.txt while they are read.

ghost use Rattle.std.specs.Prelude.{◌≡◌, IfOk};
ghost use Rattle.schedule_tables.specs.Numbers.{map_of};

use crate::grouped::{Grouped, Only};
use crate::numbered::Numbered;
use crate::table::Table;
use schedule_rows::{CellFault, Cells, File, Item, Row, SharedIds, Trip};
use std::alloc::{AllocError, Global};
use std::marker::Model;

/// The trips of the rows so far, by id. Contracts see a finite map from the ids' bytes.
///
/// Many trips have one route and one service, so they share the texts of these.
#[derive(Drop)]
pub struct Trips {
    trips: Grouped<Only<Trip>>,
    ids: SharedIds,
}

impl Model for Trips {
    ghost use Rattle.schedule_tables.specs.Formats.{ByTrip, by_trip_code};

    ghost Value = { ByTrip };

    ghost coded = { by_trip_code };

    ghost view = { λ trips. trips.trips };
}

impl Trips {
    /// How many trips there are.
    pub fn len(&self) -> usize {
        self.trips.len()
    }

    /// The same trips by number.
    pub fn into_numbered(self) -> Numbered<Only<Trip>>
        ensures { map_of result ≡ self }
    {
        self.trips.into_numbered()
    }
}

/// The same trip, with the texts of the first ids that were equal.
fn shared(ids: &mut SharedIds, trip: Trip) -> Result<Trip, AllocError>
    ensures { IfOk result (λ shared. shared ≡ trip) }
{
    let route = ids.shared(trip.route)?;
    let service = ids.shared(trip.service)?;
    Ok(Trip {
        route,
        service,
        direction: trip.direction,
    })
}

impl Table for Trips {
    ghost use Rattle.schedule_tables.specs.Formats.{trips};

    type Row = Row<Trip>;

    ghost format = { trips };

    fn ids(&self) -> usize {
        self.len()
    }

    fn file() -> File {
        Trip::file()
    }

    fn empty(alloc: Global) -> Trips {
        Trips {
            trips: Grouped::new(alloc),
            ids: SharedIds::new(alloc),
        }
    }

    fn read(alloc: Global, cells: &Cells<'_>) -> Result<Row<Trip>, CellFault> {
        Trip::read(alloc, cells)
    }

    fn put(&mut self, alloc: Global, row: Row<Trip>) -> Result<bool, AllocError> {
        let trip = shared(&mut self.ids, row.item)?;
        self.trips.put(alloc, row.id, trip)
    }
}

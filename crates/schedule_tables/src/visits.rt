//! The rows of stop_times.txt while they are read.

ghost use Rattle.std.specs.Prelude.{◌≡◌, IfOk};

use crate::grouped::Grouped;
use crate::stop_ids::StopIds;
use crate::stop_time::StopTime;
use crate::stop_times::StopTimes;
use crate::table::Table;
use crate::trip_rows::TripRows;
use crate::trip_times::TripTimes;
use indexmap::IndexMap;
use schedule_rows::{CellFault, Cells, File, Item, Row, Visit};
use std::alloc::{AllocError, Global};
use std::marker::Model;

/// The stop times of the rows so far, by trip and in any order. Contracts see what they see of a
/// `StopTimes`.
#[derive(Drop)]
pub(crate) struct Visits {
    stops: StopIds,
    times: Grouped<TripRows>,
}

impl Model for Visits {
    ghost use Rattle.schedule_tables.specs.Stops.{StopTable, stop_table_code};

    ghost Value = { StopTable };

    ghost coded = { stop_table_code };

    ghost view = { λ table. record { stops = table.stops; times = table.times } };
}

impl Visits {
    /// The same stop times, those of each trip by rising sequence.
    pub fn settled(self, alloc: Global) -> Result<StopTimes, AllocError>
        ensures { IfOk result (λ table. table ≡ self) }
    {
        let trips = settled(alloc, self.times.into_groups())?;
        Ok(StopTimes::new(self.stops, Grouped::of(trips)))
    }
}

/// The same trips, each with its stop times by rising sequence.
fn settled(
    alloc: Global,
    trips: IndexMap<String, TripRows>,
) -> Result<IndexMap<String, TripTimes>, AllocError>
    ensures { IfOk result (λ settled. settled.entries ≡ trips.entries) }
{
    let mut settled = IndexMap::with_capacity(alloc, trips.len())?;
    for (id, rows) in trips {
        let times = rows.settled(alloc)?;
        settled.insert(id, times)?;
    }
    Ok(settled)
}

impl Table for Visits {
    ghost use Rattle.schedule_tables.specs.Stops.{visits};

    type Row = Row<Visit>;

    ghost format = { visits };

    fn file() -> File {
        Visit::file()
    }

    fn empty(alloc: Global) -> Visits {
        Visits {
            stops: StopIds::new(alloc),
            times: Grouped::new(alloc),
        }
    }

    fn awaiting(alloc: Global, ids: usize) -> Result<Visits, AllocError> {
        Ok(Visits {
            stops: StopIds::new(alloc),
            times: Grouped::with_room(alloc, ids)?,
        })
    }

    fn read(alloc: Global, cells: &Cells<'_>) -> Result<Row<Visit>, CellFault> {
        Visit::read(alloc, cells)
    }

    fn put(&mut self, alloc: Global, row: Row<Visit>) -> Result<bool, AllocError> {
        let visit = row.item;
        let stop = self.stops.number(visit.stop)?;
        let time = StopTime {
            sequence: visit.sequence,
            stop,
            arrival: visit.arrival,
            departure: visit.departure,
        };
        self.times.put(alloc, row.id, time)
    }
}

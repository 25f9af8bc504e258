//! The location types of the stops of stop times.

ghost use Rattle.std.specs.Prelude.{◌≡◌, IfOk};
ghost use Rattle.timetable.specs.Timetables.{KnowsKinds, kind_in};

use schedule_rows::Stop;
use schedule_tables::{Grouped, Only, StopIds};
use std::alloc::{AllocError, Global};

/// The location type of a stop of stops.txt.
pub(crate) fn kind(stops: &Grouped<Only<Stop>>, id: &str) -> Option<u32>
    ensures { result ≡ kind_in stops.now id.now }
{
    match stops.get(id) {
        Some(only) => Some(only.item.kind),
        None => None,
    }
}

/// For each stop of the stop times, by number, its location type.
pub(crate) fn kinds_by_number(
    alloc: Global,
    stops: &Grouped<Only<Stop>>,
    ids: &StopIds,
) -> Result<Vec<Option<u32>>, AllocError>
    ensures { IfOk result (λ kinds. KnowsKinds stops.now ids.now kinds.items) }
{
    let mut kinds = Vec::new(alloc);
    for number in 0..ids.len() {
        kinds.push(kind(stops, ids.get(number)))?;
    }
    Ok(kinds)
}

//! The rows of updates.
ghost use Rattle.std.specs.Prelude.{◌≡◌, ◌<◌, ◌^◌, ◌∷◌, ◌++◌, [], IfOk, OnOk, length};
ghost use Rattle.propagation.specs.Rows.{canceled_row, stated_from, stated_row, time_row, unmatched_from, unmatched_row};
ghost use Rattle.propagation.specs.declared.event_kind.EventKind.TheVariants as kind;

use crate::event_kind::EventKind;
use crate::own::stated_time;
use crate::prediction_row::PredictionRow;
use crate::row_state::RowState;
use crate::source::Source;
use feed_values::{StopTimeUpdate, copied_text};
use std::alloc::{AllocError, Global};

/// The row of an unmatched update.
fn unmatched_row(
    alloc: Global,
    index: u32,
    update: &StopTimeUpdate,
) -> Result<PredictionRow, AllocError>
    ensures { IfOk result (λ row. row ≡ unmatched_row index update.now) }
{
    Ok(PredictionRow {
        stop_sequence: update.stop_sequence,
        stop_id: copied_text(alloc, &update.stop_id)?,
        event: EventKind::Update,
        scheduled: None,
        predicted: None,
        delay: None,
        source: Source::Update(index),
        state: RowState::Unmatched,
    })
}

/// Appends the rows of the unmatched updates.
pub(crate) fn put_unmatched(
    alloc: Global,
    updates: &[StopTimeUpdate],
    places: &[Option<usize>],
    rows: &mut Vec<PredictionRow>,
) -> Result<(), AllocError>
    requires few { length updates.now < 2 ^ 32 }
    requires size { length places.now ≡ length updates.now }
    ensures { OnOk result (rows.new.items ≡ rows.old.items ++ unmatched_from 0 updates.now places.now) }
{
    for (index, update) in updates.iter().enumerate() {
        if places[index].is_none() {
            rows.push(unmatched_row(alloc, index as u32, update)?)?;
        }
    }
    Ok(())
}

/// The row of a stated time.
fn time_row(
    alloc: Global,
    index: u32,
    update: &StopTimeUpdate,
    event: EventKind,
    time: i64,
) -> Result<PredictionRow, AllocError>
    ensures { IfOk result (λ row. row ≡ time_row index update.now event time) }
{
    Ok(PredictionRow {
        stop_sequence: update.stop_sequence,
        stop_id: copied_text(alloc, &update.stop_id)?,
        event,
        scheduled: None,
        predicted: Some(time as i128),
        delay: None,
        source: Source::Update(index),
        state: RowState::Stated,
    })
}

/// Appends the row of an event whose time an update states.
fn put_stated(
    alloc: Global,
    index: u32,
    update: &StopTimeUpdate,
    event: EventKind,
    rows: &mut Vec<PredictionRow>,
) -> Result<(), AllocError>
    ensures { OnOk result (rows.new.items ≡ rows.old.items ++ stated_row index update.now event) }
{
    if let Some(time) = stated_time(update, event) {
        rows.push(time_row(alloc, index, update, event, time)?)?;
    }
    Ok(())
}

/// The rows of the times that updates state.
pub(crate) fn stated_rows(
    alloc: Global,
    updates: &[StopTimeUpdate],
) -> Result<Vec<PredictionRow>, AllocError>
    requires { length updates.now < 2 ^ 32 }
    ensures { IfOk result (λ rows. rows.items ≡ stated_from 0 updates.now) }
{
    let mut rows = Vec::new(alloc);
    for (index, update) in updates.iter().enumerate() {
        put_stated(alloc, index as u32, update, EventKind::Arrival, &mut rows)?;
        put_stated(alloc, index as u32, update, EventKind::Departure, &mut rows)?;
    }
    Ok(rows)
}

/// The row of a canceled trip.
pub(crate) fn canceled_rows(alloc: Global) -> Result<Vec<PredictionRow>, AllocError>
    ensures { IfOk result (λ rows. rows.items ≡ canceled_row ∷ []) }
{
    let mut rows = Vec::new(alloc);
    rows.push(PredictionRow {
        stop_sequence: None,
        stop_id: None,
        event: EventKind::Trip,
        scheduled: None,
        predicted: None,
        delay: None,
        source: Source::Blank,
        state: RowState::Canceled,
    })?;
    Ok(rows)
}

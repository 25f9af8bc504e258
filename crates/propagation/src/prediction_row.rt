//! A row of predictions.

use crate::event_kind::EventKind;
use crate::row_state::RowState;
use crate::source::Source;
use feed_values::Text;

/// What is predicted of an event, with times in POSIX seconds and delays in seconds; early is negative.
#[derive(Debug, Drop)]
pub struct PredictionRow {
    /// As in stop_times.txt, or as an update states it.
    pub stop_sequence: Option<u32>,
    /// As in stop_times.txt, or as an update states it.
    pub stop_id: Option<Text>,
    pub event: EventKind,
    pub scheduled: Option<i128>,
    pub predicted: Option<i128>,
    pub delay: Option<i128>,
    pub source: Source,
    pub state: RowState,
}

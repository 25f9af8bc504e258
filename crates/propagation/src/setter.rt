//! What is set from an event on.

use crate::source::Source;

/// What is set from an event on: a delay in seconds, early is negative, or that there is no data, which is None. (GTFS
/// Realtime Reference, "Trip Updates", delay propagation.)
#[derive(Clone, Copy, Debug)]
pub struct Setter {
    pub source: Source,
    pub delay: Option<i128>,
}

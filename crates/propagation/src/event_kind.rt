//! What a row tells of.

/// What a row tells of.
#[derive(Clone, Copy, Debug, PartialEq, Eq)]
pub enum EventKind {
    Arrival,
    Departure,
    /// The whole trip.
    Trip,
    /// An update that matches no stop.
    Update,
}

//! What a row comes from.

/// What a row comes from.
#[derive(Clone, Copy, Debug, PartialEq, Eq)]
pub enum Source {
    /// Nothing: no setter governs the event, or the trip is canceled.
    Blank,
    /// The delay of the whole trip.
    Trip,
    /// The update with this index, from 0.
    Update(u32),
}

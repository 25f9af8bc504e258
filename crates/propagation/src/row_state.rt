//! What is known of an event.

/// What is known of an event.
#[derive(Clone, Copy, Debug, PartialEq, Eq)]
pub enum RowState {
    /// Its time, and how much later that is than scheduled.
    Predicted,
    /// Its time; it isn't scheduled.
    Stated,
    /// The stop is skipped.
    Skipped,
    /// An update says that there is no data from here on.
    NoData,
    /// No update or trip delay stands at or before it.
    Unknown,
    /// Its delay, but no time: it isn't scheduled.
    Untimed,
    /// The whole trip is canceled.
    Canceled,
    /// The row is of an update that matches no stop.
    Unmatched,
}

//! A setter with its position.

use crate::setter::Setter;

/// A setter with the position of its event: the arrival of the stop with index `j` has the position `2 * j`, its departure
/// the next one, and the delay of the whole trip stands before all, at -1.
#[derive(Clone, Copy, Debug)]
pub(crate) struct PlacedSetter {
    pub position: i128,
    pub setter: Setter,
}

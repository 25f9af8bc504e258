//! What is told of an accepted snapshot.

/// What stands behind the line of an accepted snapshot.
#[derive(Clone, Copy, Debug, PartialEq, Eq)]
pub enum Telling {
    /// Nothing: the line has the counts alone.
    Counts,
    /// The findings that it opened, and then the rules at places that it closed.
    Changes,
}

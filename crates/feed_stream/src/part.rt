//! A range of bytes.

/// The bytes from place `start` on, up to the one before `end`.
#[derive(Clone, Copy, Debug, PartialEq, Eq)]
pub struct Part {
    pub start: usize,
    pub end: usize,
}

//! Why a message isn't taken to its end.

use std::alloc::AllocError;

/// Something is wrong with the bytes, or no memory is left. Which it is, `check_snapshot` tells, and the parts of a snapshot
/// that passed a check have nothing wrong.
#[derive(Clone, Copy)]
pub struct Stopped;

impl From<AllocError> for Stopped {
    fn from(_e: AllocError) -> Stopped {
        Stopped
    }
}

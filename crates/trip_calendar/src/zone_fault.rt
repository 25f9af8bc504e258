//! Why a zone isn't made.

use thiserror::Error;

/// Why a zone isn't made.
#[derive(Clone, Copy, Debug, PartialEq, Eq, Error)]
pub enum ZoneFault {
    /// The text is no POSIX rule, or the bytes are no zone file.
    #[error("bad zone")]
    BadZone,
    #[error("out of memory")]
    Memory,
}

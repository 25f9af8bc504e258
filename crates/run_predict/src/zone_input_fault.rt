//! Why a zone isn't taken.

/// Why the zone that a command line names isn't had.
#[derive(Clone, Copy, Debug, PartialEq, Eq)]
pub enum ZoneInputFault {
    /// The zone file isn't there.
    MissingFile,
    /// The zone file has more than 1,048,576 bytes.
    TooLarge,
    /// The text is no POSIX rule, or the bytes are no zone file.
    BadZone,
    /// The zone file couldn't be read.
    ReadFault,
    /// No memory was found.
    Memory,
}

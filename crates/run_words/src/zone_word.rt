//! How a command line names a zone.

use feed_values::Text;

/// The zone whose clocks the times of a timetable are those of.
#[derive(Debug, Drop)]
pub enum ZoneWord {
    /// A POSIX rule, as `EST5EDT,M3.2.0,M11.1.0`.
    Rule(Text),
    /// The name of a compiled zone file.
    File(Text),
}

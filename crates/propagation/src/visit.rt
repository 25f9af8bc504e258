//! A visit of a trip at a stop.

/// A visit of a trip at a stop, with its times in seconds from the trip's zero. (GTFS Schedule Reference, "stop_times.txt".)
#[derive(Clone, Copy)]
pub(crate) struct Visit<'a> {
    pub stop: &'a str,
    pub sequence: u32,
    pub arrival: Option<u32>,
    pub departure: Option<u32>,
}

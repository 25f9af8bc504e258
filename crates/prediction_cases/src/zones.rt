//! Asks of a zone.

use cases::{number, say_some, word};
use rt_day::Day;
use std::alloc::{AllocError, Global};
use trip_calendar::{Zone, ZoneFault, local_day, origin};

// The text of a fault of this name.
fn fault_of(name: &str) -> ZoneFault {
    match name {
        "bad-zone" => ZoneFault::BadZone,
        _ => ZoneFault::Memory,
    }
}

/// Answers `origin DAY`, `local-day MOMENT`, and `zone-fault NAME` with its text.
pub fn answer(
    alloc: Global,
    zone: &Zone,
    words: &[String],
    out: &mut Vec<u8>,
) -> Result<bool, AllocError> {
    match word(words, 0) {
        "origin" => {
            let number = word(words, 1).parse().unwrap_or(0);
            say_some(alloc, out, origin(alloc, zone, Day { number })?)?;
        }
        "local-day" => {
            let day = local_day(alloc, zone, number(words, 1))?;
            say_some(alloc, out, day.map(|day| day.number))?;
        }
        "zone-fault" => say_some(alloc, out, Some(fault_of(word(words, 1))))?,
        _ => return Ok(false),
    }
    Ok(true)
}

//! Asks of days.

use cases::{say_some, say_whether, size, word};
use rt_day::{Day, parse_date, parse_digits, parse_time, weekday, year_in_range};
use std::alloc::{AllocError, Global};

fn day(words: &[String]) -> Day {
    Day {
        number: word(words, 1).parse().unwrap_or(0),
    }
}

/// Answers `digits MOST TEXT`, `time TEXT`, `date TEXT`, `weekday DAY` and `in-range DAY`.
pub fn answer(alloc: Global, words: &[String], out: &mut Vec<u8>) -> Result<bool, AllocError> {
    match word(words, 0) {
        "digits" => {
            let most = size(words, 1).clamp(1, 19);
            say_some(alloc, out, parse_digits(word(words, 2), 1, most))?;
        }
        "time" => say_some(alloc, out, parse_time(word(words, 1)))?,
        "date" => say_some(alloc, out, parse_date(word(words, 1)).map(|day| day.number))?,
        "weekday" => say_some(alloc, out, Some(weekday(day(words))))?,
        "in-range" => say_whether(out, year_in_range(day(words)))?,
        _ => return Ok(false),
    }
    Ok(true)
}

//! Times and dates of the GTFS Schedule, read from text, and days of the Gregorian calendar.
//!
//! Every reading is exact both ways: it answers None exactly where the text isn't what was asked for,
//! and takes no memory. From the bottom up: `digits` reads plain decimal numbers, `time` reads times
//! that may pass 24 hours, `day` is the day number with its weekday, `date` reads YYYYMMDD, and `laws`
//! says of times and dates what their texts are.
#![tactic(auto)]

mod date;
mod day;
mod digits;
mod laws;
mod time;

pub use date::parse_date;
pub use day::{Day, weekday, year_in_range};
pub use digits::parse_digits;
pub use laws::{date_is_its_parts, time_is_its_parts};
pub use time::parse_time;

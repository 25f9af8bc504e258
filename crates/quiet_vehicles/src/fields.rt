//! What rules ask of the fields of a vehicle position.
ghost use Rattle.std.specs.Prelude.{◌≡◌, ◌&&◌, not, pos, Some};
ghost use Rattle.feed_values.specs.Cells.{number_cell, text_cell};
ghost use Rattle.feed_values.specs.Views.{natural};
ghost use Rattle.rule_table.specs.Passed.{is_given};
ghost use Rattle.rule_clear.specs.Sound.{below, no_time};
ghost use Rattle.quiet_vehicles.specs.Quiet.{is_ahead, is_wrong_clock, is_wrong_date};

use crate::clock::is_clock;
use feed_values::{Text, given_text};
use rt_day::parse_date;

/// Whether a timestamp is given, and no time from 2005 on.
pub fn is_no_time(timestamp: Option<u64>) -> bool
    ensures { result ≡ no_time (number_cell (natural timestamp)) }
{
    match timestamp {
        None => false,
        Some(time) => !(1104537600 <= time && time <= 4294967295),
    }
}

/// Whether both are given, and the first is below the second.
pub fn is_below(first: Option<u64>, second: Option<u64>) -> bool
    ensures { result ≡ below (number_cell (natural first)) (number_cell (natural second)) }
{
    match (first, second) {
        (Some(first), Some(second)) => first < second,
        _ => false,
    }
}

/// Whether a timestamp is given, and is above the moment by more than 60 seconds.
pub fn is_ahead(timestamp: Option<u64>, moment: u64) -> bool
    ensures { result ≡ is_ahead (number_cell (natural timestamp)) moment }
{
    match timestamp {
        None => false,
        Some(time) => (moment as i128) + 60 < time as i128,
    }
}

/// Whether a start_time is given that isn't written as a time.
pub fn is_wrong_clock(text: &Option<Text>) -> bool
    ensures { result ≡ is_wrong_clock (text_cell text.now) }
{
    match given_text(text) {
        None => false,
        Some(text) => !is_clock(text),
    }
}

/// Whether a start_date is given that isn't written as a date.
pub fn is_wrong_date(text: &Option<Text>) -> bool
    ensures { result ≡ is_wrong_date (text_cell text.now) }
{
    match given_text(text) {
        None => false,
        Some(text) => parse_date(text).is_none(),
    }
}

//! Days by number.

ghost use Rattle.std.specs.Prelude.{◌≡◌, ◌<◌, ◌↔◌, IsTrue};
ghost use Rattle.jiff_core.specs.Calendar.{weekday_number};
ghost use Rattle.rt_day.specs.Date.{IsYearInRange};

/// A day of the Gregorian calendar, as the count of days from 1970-01-01, negative before it.
#[derive(Clone, Copy, PartialEq, Eq, PartialOrd, Ord, Hash, Debug)]
pub struct Day {
    pub number: i32,
}

/// 1000-01-01.
const FIRST: i32 = -354_285;

/// 9800-12-31.
const LAST: i32 = 2_860_213;

/// The day of the week, Monday as 0 and Sunday as 6.
pub fn weekday(day: Day) -> u8
    ensures value { result ≡ weekday_number day.number }
    ensures below { result < 7 }
{
    // Day 0 was a Thursday.
    (day.number as i64 + 3).rem_euclid(7) as u8
}

/// Whether the day lies from 1000-01-01 to 9800-12-31.
pub fn year_in_range(day: Day) -> bool
    ensures { IsTrue result ↔ IsYearInRange day.number }
{
    FIRST <= day.number && day.number <= LAST
}

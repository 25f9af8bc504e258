//! Dates as YYYYMMDD.
ghost use Rattle.std.specs.Prelude.{◌≡◌, ◌+◌, ◌*◌, pos, unsigned_abs, IfOk, Some, string_bytes};
ghost use Rattle.jiff_core.specs.Calendar.{IsBetween};
ghost use Rattle.jiff_core.specs.Date.{epoch_day};
ghost use Rattle.rt_day.specs.Date.{IsYearInRange, date_of};

use jiff_core::civil::Date;
use rt_day::Day;
use std::alloc::{AllocError, Global};

fn date_of_day(day: Day) -> Date
    requires { IsYearInRange day.number }
    ensures { epoch_day result ≡ day.number }
{
    Date::from_unix_epoch_day(day.number as i64).unwrap()
}

// The number that is written by the digits of a date.
fn date_number(date: Date) -> u32
    requires { IsBetween (pos 1000) (pos 9800) date.year }
    ensures { result ≡ unsigned_abs date.year * 10000 + date.month * 100 + date.day }
{
    date.year as u32 * 10000 + date.month as u32 * 100 + date.day as u32
}

/// The date of a day.
pub(crate) fn date_text(alloc: Global, day: Day) -> Result<String, AllocError>
    requires { IsYearInRange day.number }
    ensures { IfOk result (λ text. date_of (string_bytes text) ≡ Some day.number) }
{
    let number = date_number(date_of_day(day));
    format!(in alloc; "{number}")
}

//! Dates as YYYYMMDD.

ghost use Rattle.std.specs.Prelude.{◌≡◌, ◌<◌, option_map};
ghost use Rattle.rt_day.specs.Date.{date_of, day_of};

use crate::day::Day;
use crate::digits::parse_digits;
use jiff::civil::Date;

/// The day of a date, if the calendar has it.
fn day_of(year: u16, month: u8, day: u8) -> Option<Day>
    requires year { year < 10000 }
    requires month { month < 100 }
    requires day { day < 100 }
    ensures { option_map (λ day. day.number) result ≡ day_of year month day }
{
    let date = Date::new(year as i16, month as i8, day as i8).ok()?;
    Some(Day {
        number: date.to_plain().to_unix_epoch_day(),
    })
}

/// Reads a date as YYYYMMDD, of a year from 0000 to 9999.
///
/// None exactly where the text isn't eight digits of a real date.
pub fn parse_date(text: &str) -> Option<Day>
    ensures { option_map (λ day. day.number) result ≡ date_of text.now }
{
    let number = parse_digits(text, 8, 8)?;
    day_of(
        (number / 10000) as u16,
        (number / 100 % 100) as u8,
        (number % 100) as u8,
    )
}

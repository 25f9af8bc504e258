//! The origin of a service day, and the day that clocks show.
ghost use Rattle.std.specs.Prelude.{◌≡◌, ◌≤◌, ◌↔◌, pos, negsuc, IsOk, IfOk, IfSome, IsSome};
ghost use Rattle.jiff_core.specs.Calendar.{IsBetween};
ghost use Rattle.rt_day.specs.Date.{IsYearInRange};
ghost use Rattle.trip_calendar.specs.Zones.{IsLocalDay, IsNoon, IsOrigin, zone_of};

use crate::zone::Zone;
use jiff::Timestamp;
use jiff::civil::{Date, DateTime, Time};
use rt_day::{Day, year_in_range};
use std::alloc::{AllocError, Global};

/// Noon is half a day after the origin, in seconds.
const HALF_DAY: i64 = 43_200;

/// The last moment that has a local date, in POSIX seconds. (This profile.)
const LAST_MOMENT: u64 = 250_000_000_000;

/// Noon of a day that has an origin.
fn noon_of(day: Day) -> DateTime
    requires { IsYearInRange day.number }
    ensures { IsNoon day.number result }
{
    let date = jiff_core::civil::Date::from_unix_epoch_day(day.number as i64).unwrap();
    Date::from_plain(date).to_datetime(Time::constant(12, 0, 0, 0))
}

/// The origin of a day in a zone, in POSIX seconds: the instant of noon, less half a day. None exactly for a day outside
/// 1000-01-01 to 9800-12-31.
///
/// A noon that the clocks skip or show twice is the one that the compatible choice takes. It takes no memory. (GTFS Schedule
/// Reference, "Field Types", Time.)
pub fn origin(_alloc: Global, zone: &Zone, day: Day) -> Result<Option<i64>, AllocError>
    ensures succeeds { IsOk result }
    ensures value { IfOk result (λ o. IfSome o (IsOrigin (zone_of zone.now) day.number)) }
    ensures none { IfOk result (λ o. IsSome o ↔ IsYearInRange day.number) }
    ensures bounded { IfOk result (λ o. IfSome o (IsBetween (negsuc 399_999_999_999) (pos 400_000_000_000))) }
{
    if !year_in_range(day) {
        return Ok(None);
    }
    let instant = zone.time_zone().to_timestamp(noon_of(day)).unwrap();
    Ok(Some(instant.as_second() - HALF_DAY))
}

/// The day that the clocks of a zone show at a moment, in POSIX seconds. None exactly above 250,000,000,000. It takes no memory.
pub fn local_day(_alloc: Global, zone: &Zone, moment: u64) -> Result<Option<Day>, AllocError>
    ensures succeeds { IsOk result }
    ensures value { IfOk result (λ o. IfSome o (λ day. IsLocalDay (zone_of zone.now) moment day.number)) }
    ensures none { IfOk result (λ o. IsSome o ↔ (moment ≤ 250_000_000_000)) }
    ensures bounded { IfOk result (λ o. IfSome o (λ day. IsBetween (negsuc 4_999_999) (pos 5_000_000) day.number)) }
{
    if moment > LAST_MOMENT {
        return Ok(None);
    }
    let instant = Timestamp::from_second(moment as i64).unwrap();
    let date = zone.time_zone().to_datetime(instant).date();
    Ok(Some(Day {
        number: date.to_plain().to_unix_epoch_day(),
    }))
}

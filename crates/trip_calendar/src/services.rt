//! Days on which services run.
ghost use Rattle.std.specs.Prelude.{◌≡◌, ◌<◌, option_copied};
ghost use Rattle.timetable.specs.Lookups.{IsService, IsServiceOf, tables_in};
ghost use Rattle.timetable.specs.Maps.{Text};
ghost use Rattle.trip_calendar.specs.Services.{has_day, has_weekday, in_calendar, runs};

use rt_day::{Day, weekday};
use timetable::{ServiceNo, ServiceRow, Timetable};

/// Whether a service runs on a day: calendar_dates.txt adds the day, or doesn't remove it and calendar.txt has it. (GTFS
/// Schedule Reference, "calendar.txt" and "calendar_dates.txt".)
pub fn runs_on(table: &Timetable, service: ServiceNo, day: Day) -> bool
    requires { IsService table.now service }
    ensures { (id : Text) → IsServiceOf table.now service id → result ≡ runs (tables_in table.now) id day.number }
{
    match table.exception(service, day) {
        Some(added) => added,
        None => in_calendar(table.calendar(service), day),
    }
}

fn in_calendar(row: Option<&ServiceRow>, day: Day) -> bool
    ensures { result ≡ in_calendar (option_copied row.entry) day.number }
{
    match row {
        Some(row) => has_day(row, day),
        None => false,
    }
}

fn has_day(row: &ServiceRow, day: Day) -> bool
    ensures { result ≡ has_day row.now day.number }
{
    row.first.number <= day.number
        && day.number <= row.last.number
        && has_weekday(row.weekdays, weekday(day))
}

fn has_weekday(weekdays: u8, weekday: u8) -> bool
    requires { weekday < 7 }
    ensures { result ≡ has_weekday weekdays weekday }
{
    (weekdays >> weekday) % 2 == 1
}

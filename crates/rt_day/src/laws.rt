//! Times and dates in words of their texts. Each law is a contract that an empty body meets.

ghost use Rattle.rt_day.specs.Laws.{DatesAreRead, ReadDatesAreDates, ReadTimesAreTimes, TimesAreRead};

/// A text is read as a time exactly where it is one: one to three digits, a colon, two digits up to 59, a
/// colon and two digits up to 59. The time is their sum in seconds. (GTFS Schedule Reference, "Field
/// Types", Time.)
pub fn time_is_its_parts()
    ensures read { TimesAreRead }
    ensures exact { ReadTimesAreTimes }
{}

/// A text is read as a date exactly where it is one: four digits, two and two of a day that the Gregorian
/// calendar has. (GTFS Schedule Reference, "Field Types", Date.)
pub fn date_is_its_parts()
    ensures read { DatesAreRead }
    ensures exact { ReadDatesAreDates }
{}

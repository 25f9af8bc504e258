//! What the nearest day is, and what the text of a POSIX rule decides. Each law is a contract that an empty body meets.
ghost use Rattle.std.specs.Prelude.{◌≡◌, ℤ};
ghost use Rattle.jiff_tz.specs.PosixRule.{ambiguous_at as posix_ambiguous_at, offset_at as posix_offset_at};
ghost use Rattle.jiff.specs.Words.{civil_nanos, compatible_offset};
ghost use Rattle.jiff_core.specs.declared.civil.datetime.DateTime.{DateTime};
ghost use Rattle.jiff_tz.specs.PosixText.{tz_view};
ghost use Rattle.jiff_tz.specs.declared.posix.TimeZone.{TimeZone as PosixZone};
ghost use Rattle.trip_calendar.specs.ServiceDays.{FindsAny, FindsNearest};
ghost use Rattle.trip_calendar.specs.Views.{chosen_at, seconds_at};

/// The offset of a rule's zone at an instant is a function of what the rule's text reads as, so two zones of one text have
/// the same offsets.
pub fn rule_offsets_follow_the_text()
    ensures { (tz : PosixZone) (n : ℤ) → (posix_offset_at tz n).seconds ≡ seconds_at (tz_view tz) n }
{}

/// So is the offset that the compatible choice takes for a date and a time of the clocks, as for noon.
pub fn rule_choices_follow_the_text()
    ensures { (tz : PosixZone) (dt : DateTime) → (compatible_offset (posix_ambiguous_at tz dt)).seconds
        ≡ chosen_at (tz_view tz) dt.date.year (civil_nanos dt) }
{}

/// The day that `service_day` takes without a start_date is nearer to the moment than the candidates before it and no farther
/// than those after it, and none is taken only where there is no candidate.
pub fn nearest_is_least()
    ensures found { FindsNearest }
    ensures none { FindsAny }
{}

//! Stretches of time.
ghost use Rattle.std.specs.Prelude.{◌≡◌, [], nat_lt};
ghost use Rattle.std.specs.List.{cons_option, filter};
ghost use Rattle.feed_values.specs.Views.{time_range_value};
ghost use Rattle.alert_terms.specs.InForce.{bounds_of, earliest, has_begun, is_open, lasts, period_of};

use feed_values::TimeRange;

/// From `start` on, and before `end`; without bound on a side that isn't given.
#[derive(Debug, Drop)]
pub struct Period {
    /// POSIX time, in seconds.
    pub start: Option<u64>,
    /// POSIX time, in seconds.
    pub end: Option<u64>,
}

impl Period {
    pub fn of(range: &TimeRange) -> Period
        ensures { result ≡ period_of (time_range_value range.now) }
    {
        Period {
            start: range.start,
            end: range.end,
        }
    }

    /// Whether a moment is within.
    pub fn is_open(&self, moment: u64) -> bool
        ensures { result ≡ is_open moment self.now }
    {
        has_begun(self.start, moment) && lasts(self.end, moment)
    }

    /// The earliest of a moment that was found before, if one was, and of the start and the end where they come after `moment`.
    pub fn next_change(&self, moment: u64, before: Option<u64>) -> Option<u64>
        ensures { result ≡ earliest before (filter (nat_lt moment) (bounds_of self.now)) }
    {
        let next = earlier(moment, before, self.start);
        earlier(moment, next, self.end)
    }
}

fn has_begun(start: Option<u64>, moment: u64) -> bool
    ensures { result ≡ has_begun start moment }
{
    match start {
        Some(start) => start <= moment,
        None => true,
    }
}

fn lasts(end: Option<u64>, moment: u64) -> bool
    ensures { result ≡ lasts end moment }
{
    match end {
        Some(end) => moment < end,
        None => true,
    }
}

// The earlier of a moment that was found before, if one was, and of a bound that is given and comes after `moment`.
fn earlier(moment: u64, before: Option<u64>, bound: Option<u64>) -> Option<u64>
    ensures { result ≡ earliest before (filter (nat_lt moment) (cons_option bound [])) }
{
    match (before, bound) {
        (before, None) => before,
        (None, Some(bound)) => { if moment < bound { Some(bound) } else { None } }
        (Some(before), Some(bound)) => {
            if moment < bound && bound < before {
                Some(bound)
            } else {
                Some(before)
            }
        }
    }
}

//! Days that may be a trip's service day.
ghost use Rattle.std.specs.Prelude.{◌≡◌};
ghost use Rattle.trip_calendar.specs.ServiceDays.{nearer};

use rt_day::Day;

/// A day on which a trip's service runs, and how far the trip's first time of that day is from the moment, in seconds.
#[derive(Clone, Copy, Debug)]
pub struct Candidate {
    pub day: Day,
    pub distance: u64,
}

/// The nearer of two, the first where both are equally far.
pub fn nearer(first: Option<Candidate>, second: Option<Candidate>) -> Option<Candidate>
    ensures { result ≡ nearer first second }
{
    match (first, second) {
        (None, second) => second,
        (Some(first), None) => Some(first),
        (Some(first), Some(second)) => {
            if second.distance < first.distance {
                Some(second)
            } else {
                Some(first)
            }
        }
    }
}

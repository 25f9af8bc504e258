//! A time that may be missing.

ghost use Rattle.std.specs.Prelude.{◌≡◌};

use crate::time::Time;
use std::marker::Model;

/// A time of a service day in seconds from its origin, where there is one. It takes four bytes.
///
/// Contracts see an `Option` of the seconds.
#[derive(Clone, Copy)]
pub struct OptionalTime {
    /// The greatest number where there is none.
    seconds: u32,
}

impl Model for OptionalTime {
    ghost use Rattle.std.specs.Prelude.{ℕ, Option};

    ghost Value = { Option ℕ };

    ghost use Rattle.schedule_rows.specs.OptionalTimes.{held_as, held_as-seconds_in, seconds_in};

    ghost view = { seconds_in };

    ghost inverse = { held_as };

    ghost inverse_ok = { λ time h. held_as-seconds_in time };
}

impl OptionalTime {
    pub(crate) fn new(time: Option<Time>) -> OptionalTime
        ensures { result ≡ time }
    {
        match time {
            Some(time) => OptionalTime {
                seconds: time.seconds(),
            },
            None => OptionalTime { seconds: u32::MAX },
        }
    }

    /// The seconds, None where there is no time.
    pub fn get(self) -> Option<u32>
        ensures { result ≡ self }
    {
        if self.seconds == u32::MAX {
            None
        } else {
            Some(self.seconds)
        }
    }
}

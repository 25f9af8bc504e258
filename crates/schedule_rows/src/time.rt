//! A cell with a time.

ghost use Rattle.std.specs.Prelude.{◌≡◌, ◌<◌};

use crate::value::Value;
use rt_day::parse_time;
use std::marker::Model;

/// A time of a service day. Contracts see its seconds.
#[derive(Clone, Copy)]
pub(crate) struct Time {
    seconds: u32,
}

impl Model for Time {
    ghost use Rattle.std.specs.Prelude.{ℕ, ◌<◌};

    ghost Value = { ℕ };

    ghost view = { λ time. time.seconds };

    ghost invariant = { λ time. time.seconds < 3_600_000 };

    ghost inverse = { λ seconds. record { seconds = seconds } };
}

impl Time {
    /// The seconds, which are fewer than those of a thousand hours.
    pub fn seconds(self) -> u32
        ensures value { result ≡ self }
        ensures below { result < 3_600_000 }
    {
        self.seconds
    }
}

impl Value for Time {
    ghost use Rattle.rt_day.specs.Time.{time_of};

    ghost value_of = { time_of };

    fn parse(text: &str) -> Option<Time> {
        let seconds = parse_time(text)?;
        Some(Time { seconds })
    }
}

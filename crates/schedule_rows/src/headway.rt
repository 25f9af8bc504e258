//! The cell headway_secs.

use crate::value::Value;
use rt_day::parse_digits;

/// The seconds from one departure of a trip to the next.
#[derive(Clone, Copy)]
pub(crate) struct Headway(pub u32);

impl Value for Headway {
    ghost use Rattle.schedule_rows.specs.Values.{headway_of};

    ghost value_of = { headway_of };

    fn parse(text: &str) -> Option<Headway> {
        let number = parse_digits(text, 1, 6)?;
        if number >= 1 {
            Some(Headway(number as u32))
        } else {
            None
        }
    }
}

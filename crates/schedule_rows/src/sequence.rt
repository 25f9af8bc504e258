//! The cell stop_sequence.

use crate::value::Value;
use rt_day::parse_digits;

/// The place of a stop time in its trip.
#[derive(Clone, Copy)]
pub(crate) struct Sequence(pub u32);

impl Value for Sequence {
    ghost use Rattle.schedule_rows.specs.Values.{sequence_of};

    ghost value_of = { sequence_of };

    fn parse(text: &str) -> Option<Sequence> {
        let number = parse_digits(text, 1, 10)?;
        if number < 1 << 32 {
            Some(Sequence(number as u32))
        } else {
            None
        }
    }
}

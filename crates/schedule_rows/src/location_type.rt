//! The cell location_type.

use crate::value::Value;
use rt_day::parse_digits;

/// The kind of a stop.
#[derive(Clone, Copy)]
pub(crate) struct LocationType(pub u32);

impl Value for LocationType {
    ghost use Rattle.schedule_rows.specs.Values.{location_type_of};

    ghost value_of = { location_type_of };

    fn parse(text: &str) -> Option<LocationType> {
        let number = parse_digits(text, 1, 3)?;
        Some(LocationType(number as u32))
    }
}

//! What an update says of its trip anew.
ghost use Rattle.std.specs.Prelude.{◌≡◌, IfOk};
ghost use Rattle.feed_values.specs.Messages.{trip_properties};
ghost use Rattle.feed_values.specs.Views.{trip_properties_value};

use crate::copied::{copied_items, copied_option};
use crate::forming::{Formed, Slots, are_unknown, fits_optional_text};
use crate::{Items, Text, Unknown, UnknownValue};
use std::alloc::{AllocError, Global};

/// Properties of a trip that differ from those in the timetable: of a duplicated trip its own id, day and time.
/// (GTFS Realtime Reference 2.0, "TripProperties".)
#[derive(Drop)]
pub struct TripProperties {
    /// One of its own: no trip of trips.txt has it.
    pub trip_id: Option<Text>,
    /// The service day, `YYYYMMDD`; as the feed has it, be it such a date or not.
    pub start_date: Option<Text>,
    /// `HH:MM:SS`, from 24:00:00 on after midnight; as the feed has it, be it such a time or not.
    pub start_time: Option<Text>,
    pub unknown: Items<Unknown>,
}

impl TripProperties {
    /// Makes the value again, with its unknown fields.
    pub fn clone(&self, alloc: Global) -> Result<TripProperties, AllocError>
        ensures { IfOk result (λ copy. copy ≡ self.now) }
    {
        Ok(TripProperties {
            trip_id: copied_option(alloc, &self.trip_id)?,
            start_date: copied_option(alloc, &self.start_date)?,
            start_time: copied_option(alloc, &self.start_time)?,
            unknown: copied_items(alloc, &self.unknown)?,
        })
    }
}

impl Slots for TripProperties {
    ghost schema = { trip_properties };

    ghost value = { trip_properties_value };

    fn takes(field: &Unknown) -> bool {
        match field.number {
            1 | 2 | 3 => matches!(field.value, UnknownValue::Len(_)),
            _ => false,
        }
    }
}

impl Formed for TripProperties {
    fn is_formed(&self) -> bool {
        fits_optional_text(&self.trip_id)
            && fits_optional_text(&self.start_date)
            && fits_optional_text(&self.start_time)
            && are_unknown::<TripProperties>(&self.unknown)
    }
}

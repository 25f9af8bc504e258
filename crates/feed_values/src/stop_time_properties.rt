//! What an update says of its stop anew.
ghost use Rattle.std.specs.Prelude.{◌≡◌, IfOk};
ghost use Rattle.feed_values.specs.Messages.{stop_time_properties};
ghost use Rattle.feed_values.specs.Views.{stop_time_properties_value};

use crate::copied::{copied_items, copied_option};
use crate::forming::{Formed, Slots, are_unknown, fits_optional_text};
use crate::{Items, Text, Unknown, UnknownValue};
use std::alloc::{AllocError, Global};

/// Properties of a stop time that differ from those in the timetable. (GTFS Realtime Reference 2.0, "StopTimeProperties".)
#[derive(Drop)]
pub struct StopTimeProperties {
    /// The stop, as in stops.txt, at which the vehicle stops in place of the one that the timetable has.
    pub assigned_stop_id: Option<Text>,
    pub unknown: Items<Unknown>,
}

impl StopTimeProperties {
    /// Makes the value again, with its unknown fields.
    pub fn clone(&self, alloc: Global) -> Result<StopTimeProperties, AllocError>
        ensures { IfOk result (λ copy. copy ≡ self.now) }
    {
        Ok(StopTimeProperties {
            assigned_stop_id: copied_option(alloc, &self.assigned_stop_id)?,
            unknown: copied_items(alloc, &self.unknown)?,
        })
    }
}

impl Slots for StopTimeProperties {
    ghost schema = { stop_time_properties };

    ghost value = { stop_time_properties_value };

    fn takes(field: &Unknown) -> bool {
        match field.number {
            1 => matches!(field.value, UnknownValue::Len(_)),
            _ => false,
        }
    }
}

impl Formed for StopTimeProperties {
    fn is_formed(&self) -> bool {
        fits_optional_text(&self.assigned_stop_id)
            && are_unknown::<StopTimeProperties>(&self.unknown)
    }
}

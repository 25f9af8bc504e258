//! Properties that an update gives anew, in JSON.

ghost use Rattle.std.specs.Prelude.{◌≡◌, ◌++◌, IfOk};
ghost use Rattle.std.specs.Option.{option_map, option_or, unwrap_or};
ghost use Rattle.feed_values.specs.Schema.{blank};
ghost use Rattle.feed_values.specs.Messages.{trip_properties, stop_time_properties};
ghost use Rattle.feed_values.specs.Views.{trip_properties_value, stop_time_properties_value};
ghost use Rattle.feed_json.specs.Later.{over};

use crate::json_fault::JsonFault;
use crate::message::Form;
use crate::reading::optional_text;
use crate::unknown::{UnknownItems, put_unknown, unknown_fields};
use crate::writing::put_optional_text;
use feed_values::{Apart, Items, Slots, StopTimeProperties, Text, TripProperties, Unknown};
use serde_json::{Map, Value};
use std::alloc::{AllocError, Global};

impl UnknownItems for TripProperties {
    fn is_item(field: &Unknown) -> bool {
        !TripProperties::takes(field)
    }
}

impl Form for TripProperties {
    fn names() -> &'static [&'static str] {
        &["trip_id", "start_date", "start_time", "unknown"]
    }

    fn read(alloc: Global, value: &Value) -> Result<TripProperties, JsonFault> {
        Ok(TripProperties {
            trip_id: optional_text(alloc, value, "trip_id")?,
            start_date: optional_text(alloc, value, "start_date")?,
            start_time: optional_text(alloc, value, "start_time")?,
            unknown: unknown_fields::<TripProperties>(alloc, value)?,
        })
    }

    fn put(&self, alloc: Global, members: &mut Map<String, Value>) -> Result<(), AllocError> {
        put_optional_text(alloc, members, "trip_id", &self.trip_id)?;
        put_optional_text(alloc, members, "start_date", &self.start_date)?;
        put_optional_text(alloc, members, "start_time", &self.start_time)?;
        put_unknown(alloc, members, &self.unknown)
    }
}

impl UnknownItems for StopTimeProperties {
    fn is_item(field: &Unknown) -> bool {
        !StopTimeProperties::takes(field)
    }
}

impl Form for StopTimeProperties {
    fn names() -> &'static [&'static str] {
        &["assigned_stop_id", "unknown"]
    }

    fn read(alloc: Global, value: &Value) -> Result<StopTimeProperties, JsonFault> {
        Ok(StopTimeProperties {
            assigned_stop_id: optional_text(alloc, value, "assigned_stop_id")?,
            unknown: unknown_fields::<StopTimeProperties>(alloc, value)?,
        })
    }

    fn put(&self, alloc: Global, members: &mut Map<String, Value>) -> Result<(), AllocError> {
        put_optional_text(alloc, members, "assigned_stop_id", &self.assigned_stop_id)?;
        put_unknown(alloc, members, &self.unknown)
    }
}

/// The one of two texts that is given, and of two the latter.
fn latter(held: Option<Text>, given: Option<Text>) -> Option<Text>
    ensures { result ≡ option_or given held }
{
    match given {
        Some(text) => Some(text),
        None => held,
    }
}

/// The unknown fields of two messages, one after the other.
fn joined(held: Items<Unknown>, given: Items<Unknown>) -> Result<Items<Unknown>, AllocError>
    ensures { IfOk result (λ both. both ≡ held ++ given) }
{
    let mut fields = held.into_vec();
    fields.append(&mut given.into_vec())?;
    Ok(Items::from_vec(fields))
}

/// Properties of a trip laid over those that are held.
pub fn with_trip_properties(
    alloc: Global,
    held: Option<Apart<TripProperties>>,
    given: TripProperties,
) -> Result<Apart<TripProperties>, AllocError>
    ensures { IfOk result (λ both. trip_properties_value both ≡ over trip_properties (unwrap_or (option_map trip_properties_value held) (blank trip_properties)) (trip_properties_value given)) }
{
    let held = match held {
        Some(held) => held.into_inner(),
        None => TripProperties {
            trip_id: None,
            start_date: None,
            start_time: None,
            unknown: Items::new(alloc),
        },
    };
    let both = TripProperties {
        trip_id: latter(held.trip_id, given.trip_id),
        start_date: latter(held.start_date, given.start_date),
        start_time: latter(held.start_time, given.start_time),
        unknown: joined(held.unknown, given.unknown)?,
    };
    Apart::new(alloc, both)
}

/// Properties of a stop time laid over those that are held.
pub fn with_stop_time_properties(
    alloc: Global,
    held: Option<Apart<StopTimeProperties>>,
    given: StopTimeProperties,
) -> Result<Apart<StopTimeProperties>, AllocError>
    ensures { IfOk result (λ both. stop_time_properties_value both ≡ over stop_time_properties (unwrap_or (option_map stop_time_properties_value held) (blank stop_time_properties)) (stop_time_properties_value given)) }
{
    let held = match held {
        Some(held) => held.into_inner(),
        None => StopTimeProperties {
            assigned_stop_id: None,
            unknown: Items::new(alloc),
        },
    };
    let both = StopTimeProperties {
        assigned_stop_id: latter(held.assigned_stop_id, given.assigned_stop_id),
        unknown: joined(held.unknown, given.unknown)?,
    };
    Apart::new(alloc, both)
}

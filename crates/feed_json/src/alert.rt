//! Alerts and what they hold, in JSON.

use crate::json_fault::JsonFault;
use crate::message::{Form, optional_message, repeated};
use crate::reading::{optional_enum, optional_i32, optional_text, optional_u64};
use crate::three::three_from;
use crate::unknown::{UnknownItems, put_unknown, unknown_fields};
use crate::writing::{put_i32, put_optional, put_optional_text, put_repeated, put_u32, put_u64};
use feed_values::{Alert, EntitySelector, Slots, TimeRange, TranslatedString, Unknown};
use serde_json::{Map, Value};
use std::alloc::{AllocError, Global};

impl UnknownItems for Alert {
    fn is_item(field: &Unknown) -> bool {
        !Alert::takes(field)
    }
}

impl Form for Alert {
    fn names() -> &'static [&'static str] {
        &[
            "active_period",
            "informed_entity",
            "cause",
            "effect",
            "url",
            "header_text",
            "description_text",
            "unknown",
        ]
    }

    fn read(alloc: Global, value: &Value) -> Result<Alert, JsonFault> {
        let active_period = repeated(alloc, value, "active_period")?;
        let informed_entity = repeated(alloc, value, "informed_entity")?;
        let cause = optional_enum(alloc, value, "cause", 1, 12)?;
        let effect = optional_enum(alloc, value, "effect", 1, 9)?;
        let texts = three_from::<TranslatedString, TranslatedString, TranslatedString, Alert>(
            alloc,
            value,
            "url",
            "header_text",
            "description_text",
        )?;
        Ok(Alert {
            active_period,
            informed_entity,
            cause,
            effect,
            url: texts.first,
            header_text: texts.second,
            description_text: texts.third,
            unknown: texts.unknown,
        })
    }

    fn put(&self, alloc: Global, members: &mut Map<String, Value>) -> Result<(), AllocError> {
        put_repeated(alloc, members, "active_period", &self.active_period)?;
        put_repeated(alloc, members, "informed_entity", &self.informed_entity)?;
        put_u32(alloc, members, "cause", self.cause)?;
        put_u32(alloc, members, "effect", self.effect)?;
        put_optional(alloc, members, "url", &self.url)?;
        put_optional(alloc, members, "header_text", &self.header_text)?;
        put_optional(alloc, members, "description_text", &self.description_text)?;
        put_unknown(alloc, members, &self.unknown)
    }
}

impl UnknownItems for TimeRange {
    fn is_item(field: &Unknown) -> bool {
        !TimeRange::takes(field)
    }
}

impl Form for TimeRange {
    fn names() -> &'static [&'static str] {
        &["start", "end", "unknown"]
    }

    fn read(alloc: Global, value: &Value) -> Result<TimeRange, JsonFault> {
        Ok(TimeRange {
            start: optional_u64(alloc, value, "start")?,
            end: optional_u64(alloc, value, "end")?,
            unknown: unknown_fields::<TimeRange>(alloc, value)?,
        })
    }

    fn put(&self, alloc: Global, members: &mut Map<String, Value>) -> Result<(), AllocError> {
        put_u64(alloc, members, "start", self.start)?;
        put_u64(alloc, members, "end", self.end)?;
        put_unknown(alloc, members, &self.unknown)
    }
}

impl UnknownItems for EntitySelector {
    fn is_item(field: &Unknown) -> bool {
        !EntitySelector::takes(field)
    }
}

impl Form for EntitySelector {
    fn names() -> &'static [&'static str] {
        &[
            "agency_id",
            "route_id",
            "route_type",
            "trip",
            "stop_id",
            "unknown",
        ]
    }

    fn read(alloc: Global, value: &Value) -> Result<EntitySelector, JsonFault> {
        Ok(EntitySelector {
            agency_id: optional_text(alloc, value, "agency_id")?,
            route_id: optional_text(alloc, value, "route_id")?,
            route_type: optional_i32(alloc, value, "route_type")?,
            trip: optional_message(alloc, value, "trip")?,
            stop_id: optional_text(alloc, value, "stop_id")?,
            unknown: unknown_fields::<EntitySelector>(alloc, value)?,
        })
    }

    fn put(&self, alloc: Global, members: &mut Map<String, Value>) -> Result<(), AllocError> {
        put_optional_text(alloc, members, "agency_id", &self.agency_id)?;
        put_optional_text(alloc, members, "route_id", &self.route_id)?;
        put_i32(alloc, members, "route_type", self.route_type)?;
        put_optional(alloc, members, "trip", &self.trip)?;
        put_optional_text(alloc, members, "stop_id", &self.stop_id)?;
        put_unknown(alloc, members, &self.unknown)
    }
}

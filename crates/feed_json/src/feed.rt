//! The snapshot, its header and its entities, in JSON.

ghost use Rattle.std.specs.Prelude.{◌≡◌, map, [], IfOk};
ghost use Rattle.std.specs.List.{AllByRecursion};
ghost use Rattle.serde_json.specs.View.{view};
ghost use Rattle.feed_values.specs.Messages.{feed_header};
ghost use Rattle.feed_values.specs.Views.{feed_header_value, unknown_field};
ghost use Rattle.feed_json.specs.Holds.{Holds};
ghost use Rattle.feed_json.specs.Later.{IsItem, with_unknown};
ghost use Rattle.feed_json.specs.Reads.{Reads};
ghost use Rattle.feed_json.specs.Unform.{slots_of};

use crate::json_fault::JsonFault;
use crate::later::{Later, is_item_of, settle};
use crate::message::{Form, needed_message, repeated};
use crate::reading::{needed_text, optional_bool, optional_enum, optional_text, optional_u64};
use crate::three::three_from;
use crate::unknown::{UnknownItems, is_text, items_at, put_unknown, unknown_fields};
use crate::writing::{
    put_bool, put_message, put_optional, put_optional_text, put_repeated, put_text, put_u32,
    put_u64,
};
use feed_values::{
    Alert, Apart, Entity, FeedHeader, FeedMessage, Items, Slots, Text, TripUpdate, Unknown,
    UnknownValue, VehiclePosition,
};
use serde_json::{Map, Value};
use std::alloc::{AllocError, Global};
use std::mem;

impl UnknownItems for FeedMessage {
    fn is_item(field: &Unknown) -> bool {
        !FeedMessage::takes(field)
    }
}

impl Form for FeedMessage {
    fn names() -> &'static [&'static str] {
        &["header", "entity", "unknown"]
    }

    fn read(alloc: Global, value: &Value) -> Result<FeedMessage, JsonFault> {
        Ok(FeedMessage {
            header: needed_message(alloc, value, "header")?,
            entity: repeated(alloc, value, "entity")?,
            unknown: unknown_fields::<FeedMessage>(alloc, value)?,
        })
    }

    fn put(&self, alloc: Global, members: &mut Map<String, Value>) -> Result<(), AllocError> {
        put_message(alloc, members, "header", &self.header)?;
        put_repeated(alloc, members, "entity", &self.entity)?;
        put_unknown(alloc, members, &self.unknown)
    }
}

/// The header as its keys say, with all items of `unknown`.
fn header_slots(alloc: Global, value: &Value) -> Result<FeedHeader, JsonFault>
    ensures read { Reads feed_header_value (slots_of feed_header feed_header (view value.now)) result }
    ensures holds { IfOk result (λ message. Holds feed_header feed_header (with_unknown feed_header [] (feed_header_value message))) }
    ensures items { IfOk result (λ message. AllByRecursion (IsItem feed_header) (map unknown_field message.unknown)) }
{
    Ok(FeedHeader {
        gtfs_realtime_version: needed_text(alloc, value, "gtfs_realtime_version")?,
        incrementality: optional_enum(alloc, value, "incrementality", 0, 1)?,
        timestamp: optional_u64(alloc, value, "timestamp")?,
        feed_version: optional_text(alloc, value, "feed_version")?,
        unknown: items_at::<FeedHeader>(alloc, value)?,
    })
}

impl Later for FeedHeader {
    fn is_moved(field: &Unknown) -> bool {
        field.number == 4 && matches!(field.value, UnknownValue::Len(_))
    }

    fn may_move(field: &Unknown) -> bool {
        match &field.value {
            UnknownValue::Len(payload) => field.number != 4 || is_text(payload.as_slice()),
            _ => true,
        }
    }

    fn take(&mut self, alloc: Global, field: &Unknown) -> Result<(), AllocError> {
        if !FeedHeader::is_moved(field) {
            return Ok(());
        }
        let UnknownValue::Len(payload) = &field.value else {
            return Ok(());
        };
        let Ok(version) = str::from_utf8(payload.as_slice()) else {
            return Err(AllocError);
        };
        self.feed_version = Some(Text::of(alloc, version)?);
        Ok(())
    }

    fn replace_unknown(&mut self, unknown: Items<Unknown>) -> Items<Unknown> {
        mem::replace(&mut self.unknown, unknown)
    }
}

impl UnknownItems for FeedHeader {
    fn is_item(field: &Unknown) -> bool {
        is_item_of::<FeedHeader>(field)
    }
}

impl Form for FeedHeader {
    fn names() -> &'static [&'static str] {
        &[
            "gtfs_realtime_version",
            "incrementality",
            "timestamp",
            "feed_version",
            "unknown",
        ]
    }

    fn read(alloc: Global, value: &Value) -> Result<FeedHeader, JsonFault> {
        let header = header_slots(alloc, value)?;
        Ok(settle(alloc, header)?)
    }

    fn put(&self, alloc: Global, members: &mut Map<String, Value>) -> Result<(), AllocError> {
        put_text(
            alloc,
            members,
            "gtfs_realtime_version",
            &self.gtfs_realtime_version,
        )?;
        put_u32(alloc, members, "incrementality", self.incrementality)?;
        put_u64(alloc, members, "timestamp", self.timestamp)?;
        put_optional_text(alloc, members, "feed_version", &self.feed_version)?;
        put_unknown(alloc, members, &self.unknown)
    }
}

impl UnknownItems for Entity {
    fn is_item(field: &Unknown) -> bool {
        !Entity::takes(field)
    }
}

impl Form for Entity {
    fn names() -> &'static [&'static str] {
        &[
            "id",
            "is_deleted",
            "trip_update",
            "vehicle",
            "alert",
            "unknown",
        ]
    }

    fn read(alloc: Global, value: &Value) -> Result<Entity, JsonFault> {
        let id = needed_text(alloc, value, "id")?;
        let is_deleted = optional_bool(alloc, value, "is_deleted")?;
        let parts = three_from::<Apart<TripUpdate>, Apart<VehiclePosition>, Apart<Alert>, Entity>(
            alloc,
            value,
            "trip_update",
            "vehicle",
            "alert",
        )?;
        Ok(Entity {
            id,
            is_deleted,
            trip_update: parts.first,
            vehicle: parts.second,
            alert: parts.third,
            unknown: parts.unknown,
        })
    }

    fn put(&self, alloc: Global, members: &mut Map<String, Value>) -> Result<(), AllocError> {
        put_text(alloc, members, "id", &self.id)?;
        put_bool(alloc, members, "is_deleted", self.is_deleted)?;
        put_optional(alloc, members, "trip_update", &self.trip_update)?;
        put_optional(alloc, members, "vehicle", &self.vehicle)?;
        put_optional(alloc, members, "alert", &self.alert)?;
        put_unknown(alloc, members, &self.unknown)
    }
}

//! Unknown fields, from JSON and to it: number, wire type, and a value that is a whole number or hexadecimal digits.
//! (Protocol Buffers, Encoding, "Message Structure"; that they are kept in JSON, and how, is this profile's.)
ghost use Rattle.std.specs.Prelude.{◌≡◌, ◌≤◌, map, codes, false, OnOk, IfOk, IsTrue};
ghost use Rattle.std.specs.Option.{option_map};
ghost use Rattle.std.specs.List.{AllByRecursion};
ghost use Rattle.std.specs.Str.{is_utf8};
ghost use Rattle.hex.specs.Hex.{encode_lower};
ghost use Rattle.rt_wire.specs.Fields.{Group, IsBytes, wire_type};
ghost use Rattle.rt_wire.specs.Placed as placed;
ghost use Rattle.rt_wire.specs.Writing.{GroupIsWhole};
ghost use Rattle.feed_values.specs.WellFormed.{IsUnknown, NumbersFit};
ghost use Rattle.serde_json.specs.Data.{string};
ghost use Rattle.serde_json.specs.Find.{get};
ghost use Rattle.serde_json.specs.View.{view, items_view, members_view};
ghost use Rattle.serde_json.specs.Written.{has_float};
ghost use Rattle.feed_values.specs.Views.{unknown_field, unknown_value};
ghost use Rattle.feed_json.specs.Faults.{item_key, under};
ghost use Rattle.feed_json.specs.Form.{unknown_form, wire_form, with_member, array_form};
ghost use Rattle.feed_json.specs.Later.{IsItem, has_later, is_item};
ghost use Rattle.feed_json.specs.Reads.{Reads};
ghost use Rattle.feed_json.specs.Unform.{bytes_of, group_of, is_whole, wire_of, value_of, field_of, item_of, unknown_of, is_item_key, first_unknown, needed_at, array_at, each_of, natural_of};

use crate::json_fault::JsonFault;
use crate::message::is_among;
use crate::paths::{out_of_range, text_of, under, wrong_kind};
use crate::reading::{natural_from, u32_from};
use crate::writing::put_array;
use feed_values::{Items, Raw, Slots, Unknown, UnknownValue};
use hex::FromHexError;
use rt_wire::{RawValue, is_whole, wire_type};
use serde_json::{Map, Value, json};
use std::alloc::{AllocError, Global};

/// A kind of message, whose object has what is of no slot under `unknown`.
pub trait UnknownItems: Slots {
    /// Whether a field may stand there: where it is of no slot, or of one that the reference got later.
    fn is_item(field: &Unknown) -> bool
        ensures { result ≡ is_item Self.schema (unknown_field field.now) };
}

/// Bytes with memory of their own.
fn raw_of(alloc: Global, bytes: &[u8]) -> Result<Raw, AllocError>
    ensures same { IfOk result (λ raw. raw ≡ bytes.now) }
    ensures bytes { IfOk result IsBytes }
{
    Raw::of(alloc, bytes)
}

/// Bytes as an even number of hexadecimal digits, of either case.
fn bytes_from(alloc: Global, value: &Value) -> Result<Raw, JsonFault>
    ensures read { Reads (λ raw. raw) (bytes_of (view value.now)) result }
    ensures fits { IfOk result IsBytes }
{
    let Some(digits) = value.as_str() else {
        return Err(wrong_kind(alloc));
    };
    match hex::decode(alloc, digits) {
        Ok(bytes) => Ok(raw_of(alloc, bytes.as_slice())?),
        Err(FromHexError::OutOfMemory) => Err(JsonFault::Memory),
        Err(_) => Err(out_of_range(alloc)),
    }
}

/// The bytes of a group.
fn group_from(alloc: Global, value: &Value) -> Result<UnknownValue, JsonFault>
    ensures read { Reads unknown_value (group_of (view value.now)) result }
    ensures fits { IfOk result (λ value. GroupIsWhole (unknown_value value) × NumbersFit (unknown_value value)) }
{
    let group = bytes_from(alloc, value)?;
    if is_whole(group.as_slice()) {
        Ok(UnknownValue::Group(group))
    } else {
        Err(out_of_range(alloc))
    }
}

/// Whether bytes are a text.
#[tactic(auto, using(crate::proofs::Taken::text, crate::proofs::Taken::no_text))]
pub fn is_text(bytes: &[u8]) -> bool
    ensures { result ≡ is_utf8 bytes.now }
{
    match str::from_utf8(bytes) {
        Ok(_) => true,
        Err(_) => false,
    }
}

/// A wire type: 0 a varint, 1 eight bytes, 2 bytes with a length, 3 a group, 5 four bytes.
fn wire_from(alloc: Global, value: &Value) -> Result<u32, JsonFault>
    ensures { result ≡ wire_of (view value.now) }
{
    let wire = u32_from(alloc, value, 0, 5)?;
    if wire == 4 {
        return Err(out_of_range(alloc));
    }
    Ok(wire)
}

/// The value of a wire type.
fn value_from(alloc: Global, wire: u32, value: &Value) -> Result<UnknownValue, JsonFault>
    ensures read { Reads unknown_value (value_of wire (view value.now)) result }
    ensures fits { IfOk result (λ value. GroupIsWhole (unknown_value value) × NumbersFit (unknown_value value)) }
{
    match wire {
        0 => Ok(UnknownValue::Varint(natural_from(alloc, value, 0, u64::MAX)?)),
        1 => Ok(UnknownValue::Fixed64(natural_from(alloc, value, 0, u64::MAX)?)),
        2 => Ok(UnknownValue::Len(bytes_from(alloc, value)?)),
        3 => group_from(alloc, value),
        _ => Ok(UnknownValue::Fixed32(u32_from(alloc, value, 0, u32::MAX)?)),
    }
}

/// A field that may be an item of a kind of message.
fn field_from<M: UnknownItems>(
    alloc: Global,
    number: u32,
    wire: u32,
    value: &Value,
) -> Result<Unknown, JsonFault>
    requires some { 1 ≤ number }
    requires small { number ≤ 536870911 }
    ensures read { Reads unknown_field (field_of M.schema number wire (view value.now)) result }
    ensures fits { IfOk result (λ field. IsItem M.schema (unknown_field field)) }
{
    let field = Unknown {
        number,
        value: value_from(alloc, wire, value)?,
    };
    if !M::is_item(&field) {
        return Err(out_of_range(alloc));
    }
    Ok(field)
}

/// The number of an item's field.
fn number_at(alloc: Global, value: &Value) -> Result<u32, JsonFault>
    ensures read { Reads (λ n. n) (needed_at (codes "number") (natural_of 1 536870911) (get (codes "number") (view value.now))) result }
    ensures fits { IfOk result (λ n. (1 ≤ n) × (n ≤ 536870911)) }
{
    match value.get("number") {
        Some(held) => under(alloc, "number", u32_from(alloc, held, 1, 536_870_911)),
        None => Err(JsonFault::MissingKey(text_of(alloc, "number")?)),
    }
}

/// The wire type of an item's field.
fn wire_at(alloc: Global, value: &Value) -> Result<u32, JsonFault>
    ensures { Reads (λ n. n) (needed_at (codes "wire") wire_of (get (codes "wire") (view value.now))) result }
{
    match value.get("wire") {
        Some(held) => under(alloc, "wire", wire_from(alloc, held)),
        None => Err(JsonFault::MissingKey(text_of(alloc, "wire")?)),
    }
}

/// The field of an item, by its number, its wire type and what stands at `value`.
fn value_at<M: UnknownItems>(
    alloc: Global,
    number: u32,
    wire: u32,
    value: &Value,
) -> Result<Unknown, JsonFault>
    requires some { 1 ≤ number }
    requires small { number ≤ 536870911 }
    ensures read { Reads unknown_field (needed_at (codes "value") (field_of M.schema number wire) (get (codes "value") (view value.now))) result }
    ensures fits { IfOk result (λ field. IsItem M.schema (unknown_field field)) }
{
    match value.get("value") {
        Some(held) => under(alloc, "value", field_from::<M>(alloc, number, wire, held)),
        None => Err(JsonFault::MissingKey(text_of(alloc, "value")?)),
    }
}

/// Whether a key is one of the three that an item has.
fn is_item_key(key: &str) -> bool
    ensures { result ≡ is_item_key key.now }
{
    is_among(key, &["number", "wire", "value"])
}

/// The first key, in byte order, that an item hasn't.
fn unknown_key(members: &Map<String, Value>) -> Option<&str>
    ensures { option_map (λ key. key.now) result ≡ first_unknown is_item_key (members_view members.now.entries) }
{
    for (key, _) in members {
        if !is_item_key(key.as_str()) {
            return Some(key.as_str());
        }
    }
    None
}

/// The unknown field that a tree says. Every other key than the three is unknown, `unknown` among them.
fn unknown_from<M: UnknownItems>(alloc: Global, value: &Value) -> Result<Unknown, JsonFault>
    ensures read { Reads unknown_field (unknown_of M.schema (view value.now)) result }
    ensures fits { IfOk result (λ field. IsItem M.schema (unknown_field field)) }
{
    let Some(members) = value.as_object() else {
        return Err(wrong_kind(alloc));
    };
    if let Some(key) = unknown_key(members) {
        return Err(JsonFault::UnknownKey(text_of(alloc, key)?));
    }
    let number = number_at(alloc, value)?;
    let wire = wire_at(alloc, value)?;
    value_at::<M>(alloc, number, wire, value)
}

/// An item of `unknown`. Its place is made only where it has a fault.
fn item_from<M: UnknownItems>(alloc: Global, value: &Value, i: usize) -> Result<Unknown, JsonFault>
    ensures read { Reads unknown_field (under (item_key (codes "unknown") i) (unknown_of M.schema (view value.now))) result }
    ensures fits { IfOk result (λ field. IsItem M.schema (unknown_field field)) }
{
    match unknown_from::<M>(alloc, value) {
        Ok(field) => Ok(field),
        Err(fault) => {
            let place = format!(in alloc; "unknown[{i}]")?;
            under(alloc, place.as_str(), Err(fault))
        }
    }
}

/// The items of `unknown`, in their order.
#[tactic(auto, using(crate::proofs::Lists::all_push))]
fn items_from<M: UnknownItems>(alloc: Global, items: &[Value]) -> Result<Items<Unknown>, JsonFault>
    ensures read { Reads (map unknown_field) (each_of (codes "unknown") (unknown_of M.schema) 0 (items_view items.now)) result }
    ensures fits { IfOk result (λ list. AllByRecursion (IsItem M.schema) (map unknown_field list)) }
{
    let mut list = Items::new(alloc);
    for (i, item) in items.iter().enumerate() {
        if list.push(item_from::<M>(alloc, item, i)?).is_err() {
            return Err(JsonFault::Memory);
        }
    }
    Ok(list)
}

/// The items of `unknown` of a message of kind `M`.
pub fn items_at<M: UnknownItems>(alloc: Global, value: &Value) -> Result<Items<Unknown>, JsonFault>
    ensures read { Reads (map unknown_field) (array_at (codes "unknown") (unknown_of M.schema) (get (codes "unknown") (view value.now))) result }
    ensures fits { IfOk result (λ list. AllByRecursion (IsItem M.schema) (map unknown_field list)) }
{
    let Some(held) = value.get("unknown") else {
        return Ok(Items::new(alloc));
    };
    match held.as_array() {
        Some(items) => items_from::<M>(alloc, items.as_slice()),
        None => Err(JsonFault::WrongKind(text_of(alloc, "unknown")?)),
    }
}

/// The unknown fields of a message of kind `M`, which has no slots that the reference got later.
#[tactic(auto, using(crate::proofs::Settled::all_unknown))]
pub fn unknown_fields<M: UnknownItems>(
    alloc: Global,
    value: &Value,
) -> Result<Items<Unknown>, JsonFault>
    requires { has_later M.schema ≡ false }
    ensures read { Reads (map unknown_field) (array_at (codes "unknown") (unknown_of M.schema) (get (codes "unknown") (view value.now))) result }
    ensures fits { IfOk result (λ list. AllByRecursion (IsUnknown M.schema) (map unknown_field list)) }
{
    items_at::<M>(alloc, value)
}

/// Bytes in lower-case hexadecimal.
fn hex_value(alloc: Global, bytes: &[u8]) -> Result<Value, AllocError>
    ensures { IfOk result (λ tree. view tree ≡ string (encode_lower bytes.now)) }
{
    Ok(Value::String(hex::encode(alloc, bytes)?))
}

fn wire_tree(alloc: Global, value: &RawValue<'_>) -> Result<Value, AllocError>
    ensures { IfOk result (λ tree. view tree ≡ wire_form (placed.value_of value.now)) }
{
    match value {
        RawValue::Varint(number) | RawValue::Fixed64(number) => Ok(Value::from(*number)),
        RawValue::Len(bytes) | RawValue::Group(bytes) => hex_value(alloc, bytes),
        RawValue::Fixed32(number) => Ok(Value::from(*number)),
    }
}

/// The form of an unknown field with this number and value.
#[tactic(auto, using(crate::proofs::Floats::unknown_float))]
pub fn field_tree(alloc: Global, number: u32, value: &RawValue<'_>) -> Result<Value, AllocError>
    ensures no_float { IfOk result (λ tree. has_float (view tree) ≡ false) }
    ensures tree { IfOk result (λ tree. view tree ≡ unknown_form (placed.field_of number value.now)) }
{
    let wire = wire_type(value);
    let value = wire_tree(alloc, value)?;
    json!(in alloc; {"number": number, "value": (value), "wire": wire})
}

/// The form of an unknown field.
fn unknown_tree(alloc: Global, field: &Unknown) -> Result<Value, AllocError>
    ensures { IfOk result (λ tree. view tree ≡ unknown_form (unknown_field field.now)) }
{
    field_tree(alloc, field.number, &field.value.wire_value())
}

/// The forms of unknown fields, in their order.
fn unknown_trees(alloc: Global, fields: &[Unknown]) -> Result<Vec<Value>, AllocError>
    ensures { IfOk result (λ trees. map view trees.items ≡ map unknown_form (map unknown_field fields.now)) }
{
    let mut trees = Vec::new(alloc);
    for field in fields {
        trees.push(unknown_tree(alloc, field)?)?;
    }
    Ok(trees)
}

/// Puts the unknown fields of a message, unless there are none.
pub fn put_unknown(
    alloc: Global,
    members: &mut Map<String, Value>,
    held: &Items<Unknown>,
) -> Result<(), AllocError>
    ensures { OnOk result (members_view members.new.entries
        ≡ with_member (codes "unknown") (array_form (map unknown_form (map unknown_field held.now))) (members_view members.old.entries)) }
{
    let trees = unknown_trees(alloc, held.as_slice())?;
    put_array(alloc, members, "unknown", trees)
}

//! The members of an object, one slot at a time.
//!
//! Each function puts the member of one slot, where the slot holds something. Keys stand in byte order whatever the order
//! in which they are put. After want of memory the members are only dropped.
ghost use Rattle.std.specs.Prelude.{◌≡◌, map, pos, Some, OnOk, IfOk};
ghost use Rattle.std.specs.Option.{option_map};
ghost use Rattle.serde_json.specs.Data.{string};
ghost use Rattle.serde_json.specs.View.{view, members_view};
ghost use Rattle.feed_values.specs.Schema as schema;
ghost use Rattle.feed_values.specs.Views.{natural, truth};
ghost use Rattle.feed_json.specs.Form.{form, scalar_form, array_form, with_member};

use crate::message::{Form, message_tree};
use feed_values::{Items, Text};
use serde_json::{Map, Value};
use std::alloc::{AllocError, Global};

/// A number that isn't negative.
fn put_natural(
    alloc: Global,
    members: &mut Map<String, Value>,
    key: &str,
    number: u64,
) -> Result<(), AllocError>
    ensures { OnOk result (members_view members.new.entries
        ≡ with_member key.now (Some (scalar_form schema.U64 (pos number))) (members_view members.old.entries)) }
{
    serde_json::put(members, alloc, key, Value::from(number))
}

pub fn put_bool(
    alloc: Global,
    members: &mut Map<String, Value>,
    key: &str,
    held: Option<bool>,
) -> Result<(), AllocError>
    ensures { OnOk result (members_view members.new.entries
        ≡ with_member key.now (option_map (scalar_form schema.Bool) (truth held)) (members_view members.old.entries)) }
{
    match held {
        Some(truth) => serde_json::put(members, alloc, key, Value::from(truth)),
        None => Ok(()),
    }
}

/// A number of 32 bits: an enum's and the bits of a float too.
pub fn put_u32(
    alloc: Global,
    members: &mut Map<String, Value>,
    key: &str,
    held: Option<u32>,
) -> Result<(), AllocError>
    ensures { OnOk result (members_view members.new.entries
        ≡ with_member key.now (option_map (scalar_form schema.U32) (natural held)) (members_view members.old.entries)) }
{
    put_u64(alloc, members, key, held.map(u64::from))
}

/// The bits of a float that has to be there: also zero is written.
pub fn put_needed_u32(
    alloc: Global,
    members: &mut Map<String, Value>,
    key: &str,
    number: u32,
) -> Result<(), AllocError>
    ensures { OnOk result (members_view members.new.entries
        ≡ with_member key.now (Some (scalar_form schema.U32 (pos number))) (members_view members.old.entries)) }
{
    put_natural(alloc, members, key, u64::from(number))
}

pub fn put_u64(
    alloc: Global,
    members: &mut Map<String, Value>,
    key: &str,
    held: Option<u64>,
) -> Result<(), AllocError>
    ensures { OnOk result (members_view members.new.entries
        ≡ with_member key.now (option_map (scalar_form schema.U64) (natural held)) (members_view members.old.entries)) }
{
    match held {
        Some(number) => put_natural(alloc, members, key, number),
        None => Ok(()),
    }
}

pub fn put_i32(
    alloc: Global,
    members: &mut Map<String, Value>,
    key: &str,
    held: Option<i32>,
) -> Result<(), AllocError>
    ensures { OnOk result (members_view members.new.entries
        ≡ with_member key.now (option_map (scalar_form schema.I32) held) (members_view members.old.entries)) }
{
    put_i64(alloc, members, key, held.map(i64::from))
}

pub fn put_i64(
    alloc: Global,
    members: &mut Map<String, Value>,
    key: &str,
    held: Option<i64>,
) -> Result<(), AllocError>
    ensures { OnOk result (members_view members.new.entries
        ≡ with_member key.now (option_map (scalar_form schema.I64) held) (members_view members.old.entries)) }
{
    match held {
        Some(number) => serde_json::put(members, alloc, key, Value::from(number)),
        None => Ok(()),
    }
}

pub fn put_text(
    alloc: Global,
    members: &mut Map<String, Value>,
    key: &str,
    text: &Text,
) -> Result<(), AllocError>
    ensures { OnOk result (members_view members.new.entries
        ≡ with_member key.now (Some (string text.now)) (members_view members.old.entries)) }
{
    let value = Value::try_from_str(alloc, text.as_str())?;
    serde_json::put(members, alloc, key, value)
}

pub fn put_optional_text(
    alloc: Global,
    members: &mut Map<String, Value>,
    key: &str,
    held: &Option<Text>,
) -> Result<(), AllocError>
    ensures { OnOk result (members_view members.new.entries
        ≡ with_member key.now (option_map string held.now) (members_view members.old.entries)) }
{
    match held {
        Some(text) => put_text(alloc, members, key, text),
        None => Ok(()),
    }
}

/// Puts the message of a slot that has to be there, also one that holds nothing.
pub fn put_message<M: Form>(
    alloc: Global,
    members: &mut Map<String, Value>,
    key: &str,
    message: &M,
) -> Result<(), AllocError>
    ensures { OnOk result (members_view members.new.entries
        ≡ with_member key.now (Some (form M.schema (M.value message.now))) (members_view members.old.entries)) }
{
    let value = message_tree(alloc, message)?;
    serde_json::put(members, alloc, key, value)
}

pub fn put_optional<M: Form>(
    alloc: Global,
    members: &mut Map<String, Value>,
    key: &str,
    held: &Option<M>,
) -> Result<(), AllocError>
    ensures { OnOk result (members_view members.new.entries
        ≡ with_member key.now (option_map (form M.schema) (option_map M.value held.now)) (members_view members.old.entries)) }
{
    match held {
        Some(message) => put_message(alloc, members, key, message),
        None => Ok(()),
    }
}

/// Puts an array, unless it is empty.
pub fn put_array(
    alloc: Global,
    members: &mut Map<String, Value>,
    key: &str,
    items: Vec<Value>,
) -> Result<(), AllocError>
    ensures { OnOk result (members_view members.new.entries
        ≡ with_member key.now (array_form (map view items.items)) (members_view members.old.entries)) }
{
    if items.is_empty() {
        return Ok(());
    }
    serde_json::put(members, alloc, key, Value::Array(items))
}

/// The forms of messages, in their order.
fn trees_of<M: Form>(alloc: Global, messages: &[M]) -> Result<Vec<Value>, AllocError>
    ensures { IfOk result (λ trees. map view trees.items ≡ map (form M.schema) (map M.value messages.now)) }
{
    let mut trees = Vec::new(alloc);
    for message in messages {
        trees.push(message_tree(alloc, message)?)?;
    }
    Ok(trees)
}

pub fn put_repeated<M: Form>(
    alloc: Global,
    members: &mut Map<String, Value>,
    key: &str,
    held: &Items<M>,
) -> Result<(), AllocError>
    ensures { OnOk result (members_view members.new.entries
        ≡ with_member key.now (array_form (map (form M.schema) (map M.value held.now))) (members_view members.old.entries)) }
{
    let trees = trees_of(alloc, held.as_slice())?;
    put_array(alloc, members, key, trees)
}

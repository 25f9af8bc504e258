//! The text of a snapshot's form, piece by piece: there is never more than one entity's form in memory beside the text.
ghost use Rattle.std.specs.Prelude.{◌≡◌, ◌++◌, map, false, IfOk, OnOk, string_bytes};
ghost use Rattle.serde_json.specs.View.{view};
ghost use Rattle.serde_json.specs.Written.{compact_text, has_float};
ghost use Rattle.rt_wire.specs.Placed.{field_of};
ghost use Rattle.feed_values.specs.Messages.{feed_message};
ghost use Rattle.feed_values.specs.Views.{unknown_field, entity_value, feed_header_value, feed_message_value};
ghost use Rattle.feed_json.specs.Form.{form};
ghost use Rattle.feed_json.specs.Pieces.{array_from, before_item, behind_items, end_piece, entity_piece, header_piece, unknown_piece};

use crate::message::{Form, message_tree};
use crate::unknown::field_tree;
use feed_values::{Entity, FeedHeader, FeedMessage, Unknown};
use rt_wire::RawValue;
use serde_json::Value;
use std::alloc::{AllocError, Global};

/// The text of a snapshot's form: JSON with no space and the keys in byte order. It is that of the tree of `to_json`,
/// and takes far less memory than the tree does.
pub fn to_text(alloc: Global, message: &FeedMessage) -> Result<String, AllocError>
    ensures { IfOk result (λ text. string_bytes text ≡ compact_text (form feed_message (feed_message_value message.now))) }
{
    let mut text = String::from_str(alloc, "{")?;
    push_entities(alloc, &mut text, message.entity.as_slice(), &message.header)?;
    push_fields(alloc, &mut text, message.unknown.as_slice())?;
    Ok(text)
}

/// Appends the entities and the header.
fn push_entities(
    alloc: Global,
    text: &mut String,
    entities: &[Entity],
    header: &FeedHeader,
) -> Result<(), AllocError>
    ensures { OnOk result (string_bytes text.new ≡ string_bytes text.old
        ++ array_from entity_piece (header_piece (feed_header_value header.now)) false (map entity_value entities.now)) }
{
    let mut later = false;
    for entity in entities {
        push_entity(alloc, text, later, entity)?;
        later = true;
    }
    push_header(alloc, text, later, header)
}

/// Appends the unknown fields of a snapshot and the end of its text.
fn push_fields(alloc: Global, text: &mut String, fields: &[Unknown]) -> Result<(), AllocError>
    ensures { OnOk result (string_bytes text.new ≡ string_bytes text.old
        ++ array_from unknown_piece end_piece false (map unknown_field fields.now)) }
{
    let mut later = false;
    for field in fields {
        push_field(alloc, text, later, field)?;
        later = true;
    }
    push_end(text, later)
}

fn push_field(
    alloc: Global,
    text: &mut String,
    later: bool,
    field: &Unknown,
) -> Result<(), AllocError>
    ensures { OnOk result (string_bytes text.new
        ≡ string_bytes text.old ++ unknown_piece later (unknown_field field.now)) }
{
    push_unknown(alloc, text, later, field.number, &field.value.wire_value())
}

/// Appends an entity of a snapshot, where `later` says whether it stands behind another one. The first one stands behind the
/// opening brace of the text.
pub fn push_entity(
    alloc: Global,
    text: &mut String,
    later: bool,
    entity: &Entity,
) -> Result<(), AllocError>
    ensures { OnOk result (string_bytes text.new
        ≡ string_bytes text.old ++ entity_piece later (entity_value entity.now)) }
{
    push_before(text, later, "\"entity\":[")?;
    push_message(alloc, text, entity)
}

/// Appends the header of a snapshot, where `later` says whether it stands behind an entity.
pub fn push_header(
    alloc: Global,
    text: &mut String,
    later: bool,
    header: &FeedHeader,
) -> Result<(), AllocError>
    ensures { OnOk result (string_bytes text.new
        ≡ string_bytes text.old ++ header_piece (feed_header_value header.now) later) }
{
    push_behind(text, later, "],")?;
    text.push_str("\"header\":")?;
    push_message(alloc, text, header)
}

/// Appends an unknown field of a snapshot, where `later` says whether it stands behind another one. The first one stands behind
/// the header.
pub fn push_unknown(
    alloc: Global,
    text: &mut String,
    later: bool,
    number: u32,
    value: &RawValue<'_>,
) -> Result<(), AllocError>
    ensures { OnOk result (string_bytes text.new
        ≡ string_bytes text.old ++ unknown_piece later (field_of number value.now)) }
{
    push_before(text, later, ",\"unknown\":[")?;
    let tree = field_tree(alloc, number, value)?;
    push_tree(alloc, text, &tree)
}

/// Appends the end of a snapshot's text, where `later` says whether it stands behind an unknown field.
pub fn push_end(text: &mut String, later: bool) -> Result<(), AllocError>
    ensures { OnOk result (string_bytes text.new ≡ string_bytes text.old ++ end_piece later) }
{
    push_behind(text, later, "]")?;
    text.push_str("}")
}

/// Appends what stands before an item of an array: a comma, or what opens the array before the first one.
fn push_before(text: &mut String, later: bool, opening: &str) -> Result<(), AllocError>
    ensures { OnOk result (string_bytes text.new ≡ string_bytes text.old ++ before_item opening.now later) }
{
    if later {
        text.push_str(",")
    } else {
        text.push_str(opening)
    }
}

/// Appends what stands behind the items of an array, unless there are none.
fn push_behind(text: &mut String, later: bool, closing: &str) -> Result<(), AllocError>
    ensures { OnOk result (string_bytes text.new ≡ string_bytes text.old ++ behind_items closing.now later) }
{
    if later {
        text.push_str(closing)
    } else {
        Ok(())
    }
}

/// Appends the form of a message.
fn push_message<M: Form>(alloc: Global, text: &mut String, message: &M) -> Result<(), AllocError>
    ensures { OnOk result (string_bytes text.new
        ≡ string_bytes text.old ++ compact_text (form M.schema (M.value message.now))) }
{
    let tree = message_tree(alloc, message)?;
    push_tree(alloc, text, &tree)
}

/// Appends the text of a tree.
fn push_tree(alloc: Global, text: &mut String, tree: &Value) -> Result<(), AllocError>
    requires { has_float (view tree.now) ≡ false }
    ensures { OnOk result (string_bytes text.new ≡ string_bytes text.old ++ compact_text (view tree.now)) }
{
    let piece = tree.to_string(alloc)?;
    text.push_str(piece.as_str())
}

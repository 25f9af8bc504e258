//! A snapshot from the text of its form, of which no more than one entity has a whole tree at a time.
ghost use Rattle.std.specs.Prelude.{◌≡◌, ◌≢◌, ◌≤◌, Ok, Err, IfOk, IfErr};
ghost use Rattle.json.specs.Json as json;
ghost use Rattle.json.specs.Tree.{depth, MembersHaveNumbers};
ghost use Rattle.json.specs.Value.{members_view};
ghost use Rattle.serde_json.specs.Read.{max_depth};
ghost use Rattle.serde_json.specs.View.{view};
ghost use Rattle.feed_values.specs.Messages.{entity, feed_message};
ghost use Rattle.feed_values.specs.Views.{entity_value, feed_message_value};
ghost use Rattle.feed_values.specs.WellFormed.{IsWellFormedFeed};
ghost use Rattle.feed_json.specs.declared.json_fault.JsonFault.TheVariants as faults;
ghost use Rattle.feed_json.specs.Holds.{Holds};
ghost use Rattle.feed_json.specs.Reads.{Reads};
ghost use Rattle.json_entities.specs.declared.text_fault.TextFault.TheVariants as text_fault;
ghost use Rattle.json_entities.specs.FromText.{text_message};
ghost use Rattle.json_entities.specs.Parts as parts;

use crate::items::last_in;
use crate::parts::{ENTITY, Members, lean_tree, others_tree, set_apart, tree_of};
use crate::said::Said;
use crate::text_fault::TextFault;
use feed_json::{JsonFault, from_json, needed_message, unknown_fields, unknown_key};
use feed_values::{Entity, FeedMessage, Text};
use json::{Scratch, Value as Lean};
use serde_json::Value;
use std::alloc::Global;
use std::str;

/// The message of an object's tree, in which these are the entities.
fn message_with(
    alloc: Global,
    tree: &Value,
    entities: Said<Entity>,
) -> Result<FeedMessage, JsonFault>
    ensures read { Reads feed_message_value (parts.message_with (parts.as_said entity_value entities) (view tree.now)) result }
    ensures fits { parts.AllRead entity_value (Holds entity entity) entities → IfOk result (λ message. Holds feed_message feed_message (feed_message_value message)) }
{
    let Some(members) = tree.as_object() else {
        return Err(JsonFault::WrongKind(Text::new(alloc)));
    };
    if let Some(key) = unknown_key::<FeedMessage>(members) {
        return Err(JsonFault::UnknownKey(Text::of(alloc, key)?));
    }
    let header = needed_message(alloc, tree, "header")?;
    match entities {
        Said::Messages(entity) => Ok(FeedMessage {
            header,
            entity,
            unknown: unknown_fields::<FeedMessage>(alloc, tree)?,
        }),
        Said::Fault(fault) => Err(fault),
    }
}

/// The snapshot that an object says.
#[tactic(auto, using(crate::proofs::FromText::object_said, crate::proofs::FromText::values_refused, crate::proofs::FromText::others_refused, crate::proofs::FromText::numbers_of_others, crate::proofs::FromText::numbers_of_values, crate::proofs::FromText::depth_of_others, crate::proofs::FromText::depth_of_values))]
fn object_from<'a>(
    alloc: Global,
    members: Vec<(&'a str, Lean<'a>)>,
) -> Result<FeedMessage, TextFault>
    requires numbers { MembersHaveNumbers (members_view members.items) }
    requires nest { depth (json.object (members_view members.items)) ≤ max_depth }
    ensures ok { IfOk result (λ message. parts.json_message (json.object (members_view members.entry.items)) ≡ Ok (feed_message_value message)) }
    ensures fits { IfOk result (λ message. Holds feed_message feed_message (feed_message_value message)) }
    ensures err { IfErr result (λ e. e ≢ text_fault.Message faults.Memory → parts.json_message (json.object (members_view members.entry.items)) ≡ Err e) }
{
    let Members { others, entities } = set_apart(alloc, members)?;
    let entities = last_in(alloc, entities, ENTITY)?;
    let tree = others_tree(alloc, others)?;
    Ok(message_with(alloc, &tree, entities)?)
}

/// The snapshot that a text says, or why it says none.
///
/// Beside the text a tree that borrows from it is held, some ten bytes for each byte of an ordinary text, and the whole tree of one entity.
#[tactic(auto, using(feed_json::proofs::Holding::feed_fits))]
pub fn from_text(alloc: Global, text: &[u8]) -> Result<FeedMessage, TextFault>
    ensures ok { IfOk result (λ message. text_message text.now ≡ Ok (feed_message_value message)) }
    ensures well_formed { IfOk result (λ message. IsWellFormedFeed (feed_message_value message)) }
    ensures err { IfErr result (λ e. e ≢ text_fault.Message faults.Memory → text_message text.now ≡ Err e) }
{
    let Ok(text) = str::from_utf8(text) else {
        return Err(TextFault::NotJson);
    };
    let mut scratch = Scratch::new(alloc);
    match lean_tree(alloc, text, &mut scratch)? {
        Lean::Object(members) => object_from(alloc, members),
        other => {
            let tree = tree_of(alloc, other)?;
            Ok(from_json(alloc, &tree)?)
        }
    }
}

//! A text's tree, which borrows from it, and the whole trees of its parts.
ghost use Rattle.std.specs.Prelude.{◌≡◌, ◌≢◌, ◌≤◌, Some, None, IfOk, IfErr};
ghost use Rattle.json.specs.Json as json;
ghost use Rattle.json.specs.Tree.{depth, HasNumbers, MembersHaveNumbers};
ghost use Rattle.json.specs.Value.{value_view, items_view, members_view};
ghost use Rattle.serde_json.specs.Read.{read, of_json, max_depth};
ghost use Rattle.serde_json.specs.View.{view};
ghost use Rattle.feed_json.specs.declared.json_fault.JsonFault.TheVariants as faults;
ghost use Rattle.json_entities.specs.declared.text_fault.TextFault.TheVariants as text_fault;
ghost use Rattle.json_entities.specs.Parts as parts;

use crate::text_fault::TextFault;
use feed_json::JsonFault;
use json::{Error, Reader, Scratch, Value as Lean};
use serde_json::Value;
use std::alloc::{AllocError, Global};

/// How deep a text may nest.
const MAX_DEPTH: usize = 127;

/// The key of a snapshot's entities.
pub const ENTITY: &str = "entity";

/// The members of a snapshot's object, with what stands at the key of entities by itself.
#[derive(Drop)]
pub struct Members<'a> {
    /// All, with nothing at that key.
    pub others: Vec<(&'a str, Lean<'a>)>,
    /// What stood there, as often as the key is there.
    pub entities: Vec<Lean<'a>>,
}

/// The tree of a text, which borrows its strings.
#[tactic(auto, using(crate::proofs::FromText::whole_read, crate::proofs::FromText::refused, crate::proofs::FromText::more_behind))]
pub fn lean_tree<'a>(
    alloc: Global,
    text: &'a str,
    scratch: &'a mut Scratch,
) -> Result<Lean<'a>, TextFault>
    ensures read { IfOk result (λ tree. read text.now ≡ of_json (value_view tree)) }
    ensures numbers { IfOk result (λ tree. HasNumbers (value_view tree)) }
    ensures nests { IfOk result (λ tree. depth (value_view tree) ≤ max_depth) }
    ensures err { IfErr result (λ e. e ≢ text_fault.Message faults.Memory → (e ≡ text_fault.NotJson) × (read text.now ≡ None)) }
{
    let Ok(mut reader) = Reader::new(text, scratch) else {
        return Err(TextFault::Message(JsonFault::Memory));
    };
    match Lean::read(alloc, &mut reader, MAX_DEPTH) {
        Ok(tree) => {
            if reader.next().is_some() {
                return Err(TextFault::NotJson);
            }
            Ok(tree)
        }
        Err(Error::OutOfMemory) => Err(TextFault::Message(JsonFault::Memory)),
        Err(_) => Err(TextFault::NotJson),
    }
}

/// The whole tree of a part, by its text.
#[tactic(auto, using(crate::proofs::FromText::part_read))]
fn part_tree(alloc: Global, part: &Lean<'_>) -> Result<Value, TextFault>
    requires numbers { HasNumbers (value_view part.now) }
    requires nests { depth (value_view part.now) ≤ max_depth }
    ensures ok { IfOk result (λ tree. of_json (value_view part.now) ≡ Some (view tree)) }
    ensures err { IfErr result (λ e. e ≢ text_fault.Message faults.Memory → (e ≡ text_fault.NotJson) × (of_json (value_view part.now) ≡ None)) }
{
    let text = json::to_vec(alloc, part)?;
    match Value::from_slice(alloc, &text) {
        Ok(tree) => Ok(tree),
        Err(error) => {
            if error.is_memory() {
                Err(TextFault::Message(JsonFault::Memory))
            } else {
                Err(TextFault::NotJson)
            }
        }
    }
}

/// The whole tree of a part, which is given up.
pub fn tree_of<'a>(alloc: Global, part: Lean<'a>) -> Result<Value, TextFault>
    requires numbers { HasNumbers (value_view part) }
    requires nests { depth (value_view part) ≤ max_depth }
    ensures ok { IfOk result (λ tree. of_json (value_view part.entry) ≡ Some (view tree)) }
    ensures err { IfErr result (λ e. e ≢ text_fault.Message faults.Memory → (e ≡ text_fault.NotJson) × (of_json (value_view part.entry) ≡ None)) }
{
    part_tree(alloc, &part)
}

/// The whole tree of an object, which is given up.
#[tactic(auto, using(crate::proofs::ItemsRead::object_view))]
pub fn others_tree<'a>(alloc: Global, others: Vec<(&'a str, Lean<'a>)>) -> Result<Value, TextFault>
    requires numbers { MembersHaveNumbers (members_view others.items) }
    requires nest { depth (json.object (members_view others.items)) ≤ max_depth }
    ensures ok { IfOk result (λ tree. of_json (json.object (members_view others.entry.items)) ≡ Some (view tree)) }
    ensures err { IfErr result (λ e. e ≢ text_fault.Message faults.Memory → (e ≡ text_fault.NotJson) × (of_json (json.object (members_view others.entry.items)) ≡ None)) }
{
    tree_of(alloc, Lean::Object(others))
}

/// Whether a key is that of a snapshot's entities.
fn is_entity(key: &str) -> bool
    ensures { result ≡ parts.is_entity key.now }
{
    key == ENTITY
}

/// The members with what stands at the key of entities by itself.
pub fn set_apart<'a>(
    alloc: Global,
    members: Vec<(&'a str, Lean<'a>)>,
) -> Result<Members<'a>, AllocError>
    ensures others { IfOk result (λ found. members_view found.others.items ≡ parts.emptied (members_view members.entry.items)) }
    ensures entities { IfOk result (λ found. items_view found.entities.items ≡ parts.entity_values (members_view members.entry.items)) }
{
    let mut others = Vec::new(alloc);
    let mut entities = Vec::new(alloc);
    for (key, value) in members {
        if is_entity(key) {
            others.push((key, Lean::Null))?;
            entities.push(value)?;
        } else {
            others.push((key, value))?;
        }
    }
    Ok(Members { others, entities })
}

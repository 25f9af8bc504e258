//! The messages of a text's arrays, of which no more than one has a whole tree at a time.
ghost use Rattle.std.specs.Prelude.{◌≡◌, ◌≢◌, ◌≤◌, Ok, Err, Some, None, IfOk, IfErr, OnOk, OnErr, map};
ghost use Rattle.std.specs.List.{AllByRecursion};
ghost use Rattle.json.specs.Tree.{depth, items_depth, HasNumbers, ItemsHaveNumbers};
ghost use Rattle.json.specs.Value.{value_view, items_view};
ghost use Rattle.serde_json.specs.Data as Data;
ghost use Rattle.serde_json.specs.Read.{of_json, of_items, max_depth};
ghost use Rattle.serde_json.specs.View.{view};
ghost use Rattle.feed_json.specs.declared.json_fault.JsonFault.TheVariants as faults;
ghost use Rattle.feed_json.specs.Holds.{Holds};
ghost use Rattle.json_entities.specs.declared.text_fault.TextFault.TheVariants as text_fault;
ghost use Rattle.json_entities.specs.Parts as parts;

use crate::parts::tree_of;
use crate::said::Said;
use crate::text_fault::TextFault;
use feed_json::{Form, JsonFault, array_from, item_from};
use feed_values::Items;
use json::Value as Lean;
use serde_json::Value;
use std::alloc::{AllocError, Global};

/// Reads the message of an item and puts it behind those before.
#[tactic(auto, using(feed_json::proofs::Lists::all_push))]
fn push_item<M: Form>(
    alloc: Global,
    list: &mut Items<M>,
    item: &Value,
    key: &str,
) -> Result<(), JsonFault>
    ensures ok { OnOk result (parts.and_item key.now M.schema (map M.value list.old) (view item.now) ≡ Ok (map M.value list.new)) }
    ensures fits { OnOk result (AllByRecursion (Holds M.schema M.schema) (map M.value list.old) → AllByRecursion (Holds M.schema M.schema) (map M.value list.new)) }
    ensures same { OnErr result (list.new ≡ list.old) }
    ensures err { IfErr result (λ e. e ≢ faults.Memory → parts.and_item key.now M.schema (map M.value list.old) (view item.now) ≡ Err e) }
{
    let place = list.as_slice().len();
    let message = item_from(alloc, item, key, place)?;
    match list.push(message) {
        Ok(()) => Ok(()),
        Err(_) => Err(JsonFault::Memory),
    }
}

/// Keeps a fault as the first, unless it is want of memory.
fn put_first(first: &mut Option<JsonFault>, fault: JsonFault) -> Result<(), AllocError>
    ensures kept { OnOk result (first.new ≡ Some fault) }
    ensures of_tree { OnOk result (fault ≢ faults.Memory) }
{
    if matches!(fault, JsonFault::Memory) {
        return Err(AllocError);
    }
    *first = Some(fault);
    Ok(())
}

/// Reads an item unless one before it had a fault.
#[tactic(auto, using(crate::proofs::ItemsRead::item_taken, crate::proofs::ItemsRead::item_refused))]
fn take_item<M: Form>(
    alloc: Global,
    list: &mut Items<M>,
    first: &mut Option<JsonFault>,
    item: &Value,
    key: &str,
) -> Result<(), AllocError>
    ensures said { OnOk result ((ds : Data.Items) → parts.left_said key.now M.schema (map M.value list.new) first.new ds ≡ parts.left_said key.now M.schema (map M.value list.old) first.old (Data.item (view item.now) ds)) }
    ensures fits { OnOk result (AllByRecursion (Holds M.schema M.schema) (map M.value list.old) → AllByRecursion (Holds M.schema M.schema) (map M.value list.new)) }
{
    if first.is_some() {
        return Ok(());
    }
    match push_item(alloc, list, item, key) {
        Ok(()) => Ok(()),
        Err(fault) => put_first(first, fault),
    }
}

/// The messages of an array's items, or the first fault of them. Each item is given up before the next one has a whole tree.
fn items_in<'a, M: Form>(
    alloc: Global,
    items: Vec<Lean<'a>>,
    key: &str,
) -> Result<Said<M>, TextFault>
    requires numbers { ItemsHaveNumbers (items_view items.items) }
    requires nest { items_depth (items_view items.items) ≤ max_depth }
    ensures ok { IfOk result (λ read. parts.items_said key.now M.schema (items_view items.entry.items) ≡ Some (parts.as_said M.value read)) }
    ensures fits { IfOk result (λ read. parts.AllRead M.value (Holds M.schema M.schema) read) }
    ensures err { IfErr result (λ e. e ≢ text_fault.Message faults.Memory → (e ≡ text_fault.NotJson) × (of_items (items_view items.entry.items) ≡ None)) }
{
    let mut list = Items::new(alloc);
    let mut first = None;
    for item in items {
        let tree = tree_of(alloc, item)?;
        take_item(alloc, &mut list, &mut first, &tree, key)?;
    }
    match first {
        None => Ok(Said::Messages(list)),
        Some(fault) => Ok(Said::Fault(fault)),
    }
}

/// The messages of a value at a key, or the first fault of them.
#[tactic(auto, using(crate::proofs::ItemsRead::array_view, crate::proofs::ItemsRead::array_is_said))]
fn array_in<'a, M: Form>(alloc: Global, value: Lean<'a>, key: &str) -> Result<Said<M>, TextFault>
    requires numbers { HasNumbers (value_view value) }
    requires nests { depth (value_view value) ≤ max_depth }
    ensures ok { IfOk result (λ read. parts.value_said key.now M.schema (value_view value.entry) ≡ Some (parts.as_said M.value read)) }
    ensures fits { IfOk result (λ read. parts.AllRead M.value (Holds M.schema M.schema) read) }
    ensures err { IfErr result (λ e. e ≢ text_fault.Message faults.Memory → (e ≡ text_fault.NotJson) × (of_json (value_view value.entry) ≡ None)) }
{
    match value {
        Lean::Array(items) => items_in(alloc, items, key),
        other => {
            let tree = tree_of(alloc, other)?;
            match array_from(alloc, &tree, key) {
                Ok(list) => Ok(Said::Messages(list)),
                Err(JsonFault::Memory) => Err(TextFault::Message(JsonFault::Memory)),
                Err(fault) => Ok(Said::Fault(fault)),
            }
        }
    }
}

/// What is said by what stands last at the key of entities: no entities where nothing stands there.
pub fn last_in<'a, M: Form>(
    alloc: Global,
    values: Vec<Lean<'a>>,
    key: &str,
) -> Result<Said<M>, TextFault>
    requires numbers { ItemsHaveNumbers (items_view values.items) }
    requires nest { items_depth (items_view values.items) ≤ max_depth }
    ensures ok { IfOk result (λ read. parts.last_of key.now M.schema (items_view values.entry.items) ≡ Some (parts.as_said M.value read)) }
    ensures fits { IfOk result (λ read. parts.AllRead M.value (Holds M.schema M.schema) read) }
    ensures err { IfErr result (λ e. e ≢ text_fault.Message faults.Memory → (e ≡ text_fault.NotJson) × (of_items (items_view values.entry.items) ≡ None)) }
{
    let mut last = Said::Messages(Items::new(alloc));
    for value in values {
        last = array_in(alloc, value, key)?;
    }
    Ok(last)
}

//! Any message, from JSON and to it: what is said of every kind stands here once.
ghost use Rattle.std.specs.Prelude.{◌≡◌, map, false, bytes_eq, Some, OnOk, IfOk, IfSome};
ghost use Rattle.std.specs.Option.{option_map};
ghost use Rattle.std.specs.List.{AllByRecursion, list_any};
ghost use Rattle.serde_json.specs.Find.{get};
ghost use Rattle.serde_json.specs.View.{view, items_view, members_view};
ghost use Rattle.serde_json.specs.Written.{has_float};
ghost use Rattle.feed_json.specs.Form.{form, with_slots};
ghost use Rattle.feed_json.specs.Faults.{item_key, under};
ghost use Rattle.feed_json.specs.Holds.{Holds};
ghost use Rattle.feed_json.specs.Reads.{Reads};
ghost use Rattle.feed_json.specs.Unform.{unform, settling, slots_of, is_key, names_of, first_unknown, needed_at, optional_at, array_at, each_of};

use crate::json_fault::JsonFault;
use crate::paths::{text_of, under, wrong_kind};
use feed_values::{Apart, Blank, Boxed, Items, Slots};
use serde_json::{Map, Value};
use std::alloc::{AllocError, Global};

/// A kind of message that has a JSON form. An impl names its slots in the order of the table of messages.
pub trait Form: Slots + Drop {
    /// The names of the slots, and last `unknown`.
    fn names() -> &'static [&'static str]
        ensures { map (λ name. name.now) result.now ≡ names_of Self.schema };

    /// The message of an object whose keys are known, slot by slot.
    fn read(alloc: Global, value: &Value) -> Result<Self, JsonFault>
        ensures read { Reads Self.value (settling Self.schema (slots_of Self.schema Self.schema (view value.now))) result }
        ensures fits { IfOk result (λ message. Holds Self.schema Self.schema (Self.value message)) };

    /// Puts a member for each slot that holds something, and one for the unknown fields. After want of memory they
    /// are only dropped.
    fn put(&self, alloc: Global, members: &mut Map<String, Value>) -> Result<(), AllocError>
        ensures { OnOk result (members_view members.new.entries
            ≡ with_slots Self.schema (Self.value self.now) (members_view members.old.entries)) };
}

/// A message in a box has the form of the message.
impl<M: Form + Blank> Form for Boxed<M> {
    fn names() -> &'static [&'static str] {
        M::names()
    }

    fn read(alloc: Global, value: &Value) -> Result<Boxed<M>, JsonFault> {
        Ok(Boxed::new(alloc, M::read(alloc, value)?)?)
    }

    fn put(&self, alloc: Global, members: &mut Map<String, Value>) -> Result<(), AllocError> {
        match self.get() {
            Some(message) => message.put(alloc, members),
            None => M::blank(alloc).put(alloc, members),
        }
    }
}

/// A message that stands apart too.
impl<M: Form> Form for Apart<M> {
    fn names() -> &'static [&'static str] {
        M::names()
    }

    fn read(alloc: Global, value: &Value) -> Result<Apart<M>, JsonFault> {
        Ok(Apart::new(alloc, M::read(alloc, value)?)?)
    }

    fn put(&self, alloc: Global, members: &mut Map<String, Value>) -> Result<(), AllocError> {
        (**self).put(alloc, members)
    }
}

/// Whether a key is one of these names.
pub fn is_among(key: &str, names: &[&str]) -> bool
    ensures { result ≡ list_any (λ name. bytes_eq key.now name.now) names.now }
{
    names.iter().any(|name| key == *name)
}

/// Whether a key is one that a kind of message has.
fn knows<M: Form>(key: &str) -> bool
    ensures { result ≡ is_key M.schema key.now }
{
    is_among(key, M::names())
}

/// The first key, in byte order, that a kind of message hasn't.
pub fn unknown_key<M: Form>(members: &Map<String, Value>) -> Option<&str>
    ensures { option_map (λ key. key.now) result ≡ first_unknown (is_key M.schema) (members_view members.now.entries) }
{
    for (key, _) in members {
        if !knows::<M>(key.as_str()) {
            return Some(key.as_str());
        }
    }
    None
}

/// The message that a tree says.
pub fn message_from<M: Form>(alloc: Global, value: &Value) -> Result<M, JsonFault>
    ensures read { Reads M.value (unform M.schema (view value.now)) result }
    ensures fits { IfOk result (λ message. Holds M.schema M.schema (M.value message)) }
{
    let Some(members) = value.as_object() else {
        return Err(wrong_kind(alloc));
    };
    match unknown_key::<M>(members) {
        Some(key) => Err(JsonFault::UnknownKey(text_of(alloc, key)?)),
        None => M::read(alloc, value),
    }
}

/// The message of a slot that has to be there.
pub fn needed_message<M: Form>(alloc: Global, value: &Value, key: &str) -> Result<M, JsonFault>
    ensures read { Reads M.value (needed_at key.now (unform M.schema) (get key.now (view value.now))) result }
    ensures fits { IfOk result (λ message. Holds M.schema M.schema (M.value message)) }
{
    match value.get(key) {
        Some(held) => under(alloc, key, message_from(alloc, held)),
        None => Err(JsonFault::MissingKey(text_of(alloc, key)?)),
    }
}

/// The message of a slot that may be there.
pub fn optional_message<M: Form>(
    alloc: Global,
    value: &Value,
    key: &str,
) -> Result<Option<M>, JsonFault>
    ensures read { Reads (option_map M.value) (optional_at key.now (unform M.schema) (get key.now (view value.now))) result }
    ensures fits { IfOk result (λ o. IfSome (option_map M.value o) (Holds M.schema M.schema)) }
{
    match value.get(key) {
        Some(held) => Ok(Some(under(alloc, key, message_from(alloc, held))?)),
        None => Ok(None),
    }
}

/// An item of an array. Its place is made only where it has a fault.
pub fn item_from<M: Form>(alloc: Global, value: &Value, key: &str, i: usize) -> Result<M, JsonFault>
    ensures read { Reads M.value (under (item_key key.now i) (unform M.schema (view value.now))) result }
    ensures fits { IfOk result (λ message. Holds M.schema M.schema (M.value message)) }
{
    match message_from(alloc, value) {
        Ok(message) => Ok(message),
        Err(fault) => {
            let place = format!(in alloc; "{key}[{i}]")?;
            under(alloc, place.as_str(), Err(fault))
        }
    }
}

/// The items of an array, in their order.
#[tactic(auto, using(crate::proofs::Lists::all_push))]
fn items_from<M: Form>(alloc: Global, items: &[Value], key: &str) -> Result<Items<M>, JsonFault>
    ensures read { Reads (map M.value) (each_of key.now (unform M.schema) 0 (items_view items.now)) result }
    ensures fits { IfOk result (λ list. AllByRecursion (Holds M.schema M.schema) (map M.value list)) }
{
    let mut list = Items::new(alloc);
    for (i, item) in items.iter().enumerate() {
        if list.push(item_from(alloc, item, key, i)?).is_err() {
            return Err(JsonFault::Memory);
        }
    }
    Ok(list)
}

/// The messages of what stands at a key, as an array.
pub fn array_from<M: Form>(alloc: Global, held: &Value, key: &str) -> Result<Items<M>, JsonFault>
    ensures read { Reads (map M.value) (array_at key.now (unform M.schema) (Some (view held.now))) result }
    ensures fits { IfOk result (λ list. AllByRecursion (Holds M.schema M.schema) (map M.value list)) }
{
    match held.as_array() {
        Some(items) => items_from(alloc, items.as_slice(), key),
        None => Err(JsonFault::WrongKind(text_of(alloc, key)?)),
    }
}

/// The messages of a repeated slot, none where it isn't there.
pub fn repeated<M: Form>(alloc: Global, value: &Value, key: &str) -> Result<Items<M>, JsonFault>
    ensures read { Reads (map M.value) (array_at key.now (unform M.schema) (get key.now (view value.now))) result }
    ensures fits { IfOk result (λ list. AllByRecursion (Holds M.schema M.schema) (map M.value list)) }
{
    match value.get(key) {
        Some(held) => array_from(alloc, held, key),
        None => Ok(Items::new(alloc)),
    }
}

/// The form of a message. It has no float, so its text is exact.
pub fn message_tree<M: Form>(alloc: Global, message: &M) -> Result<Value, AllocError>
    ensures no_float { IfOk result (λ tree. has_float (view tree) ≡ false) }
    ensures tree { IfOk result (λ tree. view tree ≡ form M.schema (M.value message.now)) }
{
    message_object(alloc, message)
}

fn message_object<M: Form>(alloc: Global, message: &M) -> Result<Value, AllocError>
    ensures { IfOk result (λ tree. view tree ≡ form M.schema (M.value message.now)) }
{
    let mut members = Map::new(alloc);
    message.put(alloc, &mut members)?;
    Ok(Value::Object(members))
}

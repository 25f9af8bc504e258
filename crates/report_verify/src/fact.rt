//! Facts.
ghost use Rattle.std.specs.Prelude.{◌≡◌, IfOk, true, option_map};
ghost use Rattle.std.specs.List.{list_all};
ghost use Rattle.serde_json.specs.Find.{as_str, get};
ghost use Rattle.serde_json.specs.View.{items_view, view};
ghost use Rattle.rule_table.specs.Asked.{in_range};
ghost use Rattle.report_verify.specs.Said.{all_of, bounded, cell_of, cell_at, fact_of, facts_at, texts_at};

use crate::members::text_at;
use feed_values::{CellValue, Items, Text};
use finding_names::{AskName, ask_of};
use rule_table::{Fact, cell_of, is_in_range};
use serde_json::Value;
use std::alloc::{AllocError, Global};

/// A cell: nothing, a whole number or a text.
fn cell_from(alloc: Global, value: &Value) -> Result<Option<CellValue>, AllocError>
    ensures { IfOk result (λ cell. cell ≡ cell_of (view value.now)) }
{
    match value {
        Value::Null => Ok(Some(CellValue::Missing)),
        Value::Number(number) => match number.as_i128() {
            Some(number) => Ok(Some(CellValue::Number(number))),
            None => Ok(None),
        },
        Value::String(text) => Ok(Some(CellValue::Text(Text::of(alloc, text.as_str())?))),
        _ => Ok(None),
    }
}

/// The cell at `value`, whose number lies from -2^63 to 2^64 - 1.
fn value_at(alloc: Global, fact: &Value) -> Result<Option<CellValue>, AllocError>
    ensures { IfOk result (λ cell. cell ≡ cell_at (view fact.now)) }
{
    let Some(value) = fact.get("value") else {
        return Ok(None);
    };
    let Some(cell) = cell_from(alloc, value)? else {
        return Ok(None);
    };
    if is_in_range(cell_of(&cell)) {
        Ok(Some(cell))
    } else {
        Ok(None)
    }
}

/// Texts, where all values are some.
fn texts_of(alloc: Global, values: &[Value]) -> Result<Option<Vec<Text>>, AllocError>
    ensures { IfOk result (λ texts. option_map (λ v. v.items) texts ≡ all_of as_str (items_view values.now)) }
{
    let mut texts = Vec::with_capacity(alloc, values.len())?;
    for value in values {
        let Some(text) = value.as_str() else {
            return Ok(None);
        };
        texts.push(Text::of(alloc, text)?)?;
    }
    Ok(Some(texts))
}

/// The texts at `keys`.
fn keys_at(alloc: Global, fact: &Value) -> Result<Option<Vec<Text>>, AllocError>
    ensures { IfOk result (λ texts. option_map (λ v. v.items) texts ≡ texts_at (view fact.now)) }
{
    match fact.get("keys").and_then(Value::as_array) {
        Some(values) => texts_of(alloc, values),
        None => Ok(None),
    }
}

/// The fact that a tree says.
fn fact_of(alloc: Global, fact: &Value) -> Result<Option<Fact>, AllocError>
    ensures { IfOk result (λ said. said ≡ fact_of (view fact.now)) }
{
    let Some(name) = text_at(fact, "ask").and_then(AskName::named) else {
        return Ok(None);
    };
    let Some(keys) = keys_at(alloc, fact)? else {
        return Ok(None);
    };
    let Some(ask) = ask_of(name, &keys) else {
        return Ok(None);
    };
    let Some(value) = value_at(alloc, fact)? else {
        return Ok(None);
    };
    Ok(Some(Fact {
        ask: ask.to_ask(alloc)?,
        value,
    }))
}

/// Facts, where all values are some.
fn facts_of(alloc: Global, values: &[Value]) -> Result<Option<Vec<Fact>>, AllocError>
    ensures { IfOk result (λ facts. option_map (λ v. v.items) facts ≡ all_of fact_of (items_view values.now)) }
{
    let mut facts = Vec::with_capacity(alloc, values.len())?;
    for value in values {
        let Some(fact) = fact_of(alloc, value)? else {
            return Ok(None);
        };
        facts.push(fact)?;
    }
    Ok(Some(facts))
}

/// The facts at `facts`.
pub fn facts_at(alloc: Global, finding: &Value) -> Result<Option<Items<Fact>>, AllocError>
    ensures { IfOk result (λ facts. facts ≡ facts_at (view finding.now)) }
{
    let Some(values) = finding.get("facts").and_then(Value::as_array) else {
        return Ok(None);
    };
    let Some(facts) = facts_of(alloc, values)? else {
        return Ok(None);
    };
    Ok(Some(Items::from_vec(facts)))
}

//! What a line tells of its rule.
ghost use Rattle.std.specs.Prelude.{◌≡◌, IfOk, string_bytes};
ghost use Rattle.serde_json.specs.View.{view};
ghost use Rattle.report_lines.specs.Lines.{entity_at, entity_name, entity_place, header_place, judged_at, place_name, rule_at, telling_of, told_at};
ghost use Rattle.report_lines.specs.Names.{rule_named};

use crate::line_name::LineName;
use crate::members::{count_at, text_at};
use feed_values::Text;
use rule_table::{RuleId, all_rules};
use rule_tally::Telling;
use serde_json::Value;
use std::alloc::{AllocError, Global};

/// The rule of a text, such as `E001`.
pub fn rule_named(text: &str) -> Option<RuleId>
    ensures { result ≡ rule_named text.now }
{
    all_rules().iter().copied().find(|rule| rule.name() == text)
}

/// The rule at `rule`.
pub fn rule_at(value: &Value) -> Option<RuleId>
    ensures { result ≡ rule_at (view value.now) }
{
    rule_named(text_at(value, "rule")?)
}

fn entity_text(alloc: Global, feed: u64, occurrence: u64, id: &str) -> Result<String, AllocError>
    ensures { IfOk result (λ text. string_bytes text ≡ entity_name feed occurrence id.now) }
{
    format!(in alloc; "{feed} {occurrence} {id}")
}

fn entity_name(alloc: Global, feed: u64, occurrence: u64, id: &str) -> Result<Text, AllocError>
    ensures { IfOk result (λ name. name ≡ entity_name feed occurrence id.now) }
{
    let text = entity_text(alloc, feed, occurrence, id)?;
    Text::of(alloc, text.as_str())
}

// The name of the entity at `id` and `occurrence`.
fn entity_at(alloc: Global, feed: u64, value: &Value) -> Result<Option<Text>, AllocError>
    ensures { IfOk result (λ entity. entity ≡ entity_at feed (view value.now)) }
{
    let Some(id) = text_at(value, "id") else {
        return Ok(None);
    };
    let Some(occurrence) = count_at(value, "occurrence") else {
        return Ok(None);
    };
    Ok(Some(entity_name(alloc, feed, occurrence, id)?))
}

// The entity's name, or none for a header, which has no `id`.
fn judged_at(alloc: Global, feed: u64, value: &Value) -> Result<Option<Option<Text>>, AllocError>
    ensures { IfOk result (λ judged. judged ≡ judged_at feed (view value.now)) }
{
    if value.get("id").is_none() {
        return Ok(Some(None));
    }
    match entity_at(alloc, feed, value)? {
        Some(entity) => Ok(Some(Some(entity))),
        None => Ok(None),
    }
}

fn header_place(alloc: Global, feed: u64, path: &str) -> Result<String, AllocError>
    ensures { IfOk result (λ text. string_bytes text ≡ header_place feed path.now) }
{
    format!(in alloc; "header {feed} {path}")
}

fn entity_place(alloc: Global, entity: &str, path: &str) -> Result<String, AllocError>
    ensures { IfOk result (λ text. string_bytes text ≡ entity_place entity.now path.now) }
{
    let length = entity.len();
    format!(in alloc; "{length} {entity}{path}")
}

fn place_text(
    alloc: Global,
    feed: u64,
    entity: &Option<Text>,
    path: &str,
) -> Result<String, AllocError>
    ensures { IfOk result (λ text. string_bytes text ≡ place_name feed entity.now path.now) }
{
    match entity {
        None => header_place(alloc, feed, path),
        Some(entity) => entity_place(alloc, entity.as_str(), path),
    }
}

fn place_name(
    alloc: Global,
    feed: u64,
    entity: &Option<Text>,
    path: &str,
) -> Result<Text, AllocError>
    ensures { IfOk result (λ name. name ≡ place_name feed entity.now path.now) }
{
    let text = place_text(alloc, feed, entity, path)?;
    Text::of(alloc, text.as_str())
}

// What a line of this kind tells at this place.
fn told_at(
    alloc: Global,
    name: LineName,
    feed: u64,
    path: &str,
    entity: Option<Text>,
) -> Result<Option<Telling>, AllocError>
    ensures { IfOk result (λ told. told ≡ told_at name feed path.now entity) }
{
    match name {
        LineName::Finding => Ok(Some(Telling::Finding(entity))),
        LineName::Opened => {
            let place = place_name(alloc, feed, &entity, path)?;
            Ok(Some(Telling::Opened(entity, place)))
        }
        LineName::Closed => Ok(Some(Telling::Closed(place_name(alloc, feed, &entity, path)?))),
        _ => Ok(None),
    }
}

/// What a line of this kind tells of its rule.
pub fn telling_of(
    alloc: Global,
    name: LineName,
    value: &Value,
) -> Result<Option<Telling>, AllocError>
    ensures { IfOk result (λ telling. telling ≡ telling_of name (view value.now)) }
{
    let Some(feed) = count_at(value, "feed") else {
        return Ok(None);
    };
    let Some(path) = text_at(value, "path") else {
        return Ok(None);
    };
    let Some(entity) = judged_at(alloc, feed, value)? else {
        return Ok(None);
    };
    told_at(alloc, name, feed, path, entity)
}

//! The line for a script.

use crate::place::is_on_header;
use crate::ranked::ranked;
use crate::titles::{meaning_of, title_of};
use feed_values::Text;
use report_counts::Counts;
use report_lines::{RefusedLine, RefusedTimetable, tree_of};
use rule_table::RuleId;
use rule_tally::Tally;
use serde_json::{Value, json};
use std::alloc::{AllocError, Global};

/// The same as one line of JSON, with a line feed.
pub fn record_of(
    alloc: Global,
    counts: &Counts,
    names: &[Text],
    fails: bool,
) -> Result<String, AllocError> {
    let foreign_lines = numbers_of(alloc, counts.strangers.as_slice())?;
    let refusals = refusals_of(alloc, counts.refusals.as_slice(), names)?;
    let rules = rules_of(alloc, counts)?;
    let mut value = json!(in alloc; {
        "accepted": counts.accepted,
        "fails": fails,
        "foreign": counts.foreign,
        "foreign_lines": foreign_lines,
        "ignored": counts.ignored,
        "line": "summary",
        "lines": counts.lines,
        "refusals": refusals,
        "refused": counts.refused,
        "rules": rules,
        "trials": counts.trials,
    })?;
    put_timetables(alloc, &mut value, counts)?;
    let mut text = value.to_string(alloc)?;
    text.push_str("\n")?;
    Ok(text)
}

// Adds what is said of timetables, where any was exchanged or refused.
fn put_timetables(alloc: Global, value: &mut Value, counts: &Counts) -> Result<(), AllocError> {
    if counts.exchanged == 0 && counts.refused_timetables == 0 {
        return Ok(());
    }
    let exchanged = json!(in alloc; counts.exchanged)?;
    let refused = json!(in alloc; counts.refused_timetables)?;
    let refusals = timetable_refusals_of(alloc, counts.timetable_refusals.as_slice())?;
    put(alloc, value, "exchanged", exchanged)?;
    put(alloc, value, "refused_timetables", refused)?;
    put(alloc, value, "timetable_refusals", refusals)
}

fn timetable_refusals_of(
    alloc: Global,
    refusals: &[RefusedTimetable],
) -> Result<Value, AllocError> {
    let mut values = Vec::new(alloc);
    for refusal in refusals {
        values.push(json!(in alloc; {
            "row": refusal.row,
            "text": refusal.text.as_str(),
        })?)?;
    }
    Ok(Value::Array(values))
}

// Puts a value at a key of an object.
fn put(alloc: Global, object: &mut Value, key: &str, value: Value) -> Result<(), AllocError> {
    let key = String::from_str(alloc, key)?;
    if let Some(members) = object.as_object_mut() {
        members.insert(key, value)?;
    }
    Ok(())
}

fn numbers_of(alloc: Global, numbers: &[u64]) -> Result<Value, AllocError> {
    let mut values = Vec::new(alloc);
    for number in numbers {
        values.push(json!(in alloc; *number)?)?;
    }
    Ok(Value::Array(values))
}

fn refusals_of(
    alloc: Global,
    refusals: &[RefusedLine],
    names: &[Text],
) -> Result<Value, AllocError> {
    let mut values = Vec::new(alloc);
    for refusal in refusals {
        values.push(refusal_of(alloc, refusal, names)?)?;
    }
    Ok(Value::Array(values))
}

fn refusal_of(alloc: Global, refusal: &RefusedLine, names: &[Text]) -> Result<Value, AllocError> {
    let file = match names.get(refusal.row as usize) {
        Some(name) => json!(in alloc; name.as_str())?,
        None => Value::Null,
    };
    json!(in alloc; {
        "at": refusal.at,
        "file": file,
        "reason": refusal.reason.as_str(),
        "row": refusal.row,
    })
}

fn rules_of(alloc: Global, counts: &Counts) -> Result<Value, AllocError> {
    let mut values = Vec::new(alloc);
    for rule in &ranked(alloc, counts)? {
        if let Some(tally) = counts.rules.get(*rule) {
            values.push(rule_of(alloc, *rule, tally)?)?;
        }
    }
    Ok(Value::Array(values))
}

// The first line's tree, or null where the report's beginning is lost.
fn first_of(alloc: Global, tally: &Tally) -> Result<Value, AllocError> {
    let Some(first) = &tally.first else {
        return Ok(Value::Null);
    };
    match tree_of(alloc, first.line.as_slice())? {
        Some(finding) => Ok(finding),
        None => Ok(Value::Null),
    }
}

// The moment of the first line, or null where it isn't known.
fn moment_of(alloc: Global, tally: &Tally) -> Result<Value, AllocError> {
    let Some(first) = &tally.first else {
        return Ok(Value::Null);
    };
    match first.behind.moment {
        Some(moment) => json!(in alloc; moment),
        None => Ok(Value::Null),
    }
}

// Adds the row of the timetable that brought the first line, where one did.
fn put_timetable(alloc: Global, value: &mut Value, tally: &Tally) -> Result<(), AllocError> {
    let Some(first) = &tally.first else {
        return Ok(());
    };
    match first.behind.timetable {
        Some(row) => put(alloc, value, "timetable", json!(in alloc; row)?),
        None => Ok(()),
    }
}

fn rule_of(alloc: Global, rule: RuleId, tally: &Tally) -> Result<Value, AllocError> {
    let first = first_of(alloc, tally)?;
    let meaning = meaning_of(rule, tally.first.is_some() && is_on_header(&first));
    let moment = moment_of(alloc, tally)?;
    let entities = tally.stretches.saturating_add(tally.entities.len() as u64);
    let mut value = json!(in alloc; {
        "closings": tally.closings,
        "entities": entities,
        "findings": tally.findings,
        "first": first,
        "level": rule.level(),
        "meaning": meaning,
        "moment": moment,
        "places": tally.places.len() as u64,
        "rule": rule.name(),
        "standing": tally.places.marked() as u64,
        "title": title_of(rule),
    })?;
    put_timetable(alloc, &mut value, tally)?;
    Ok(value)
}

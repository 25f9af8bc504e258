//! Facts as a sentence.

use crate::phrases::{PHRASES, Phrase};
use crate::visible::{push_quoted, push_visible};
use report_lines::text_at;
use serde_json::Value;
use std::alloc::{AllocError, Global};

// Ends of paths that stand for a message: 1 says that it is there.
const MESSAGES: [&str; 7] = [
    "trip_update",
    "vehicle",
    "alert",
    "]",
    ".arrival",
    ".departure",
    ".trip",
];

/// Appends the facts of a finding with this tree as a sentence.
pub fn push_sentence(alloc: Global, out: &mut String, finding: &Value) -> Result<(), AllocError> {
    let mut is_first = true;
    if let Some(facts) = finding.get("facts").and_then(Value::as_array) {
        for fact in facts {
            if !is_first {
                out.push_str("; ")?;
            }
            is_first = false;
            push_fact(alloc, out, fact)?;
        }
    }
    out.push_str(if is_first { "No facts are given." } else { "." })
}

fn phrase_of(ask: &str) -> Option<&'static Phrase> {
    PHRASES.iter().find(|phrase| phrase.ask == ask)
}

fn push_fact(alloc: Global, out: &mut String, fact: &Value) -> Result<(), AllocError> {
    let ask = text_at(fact, "ask").unwrap_or("?");
    match phrase_of(ask) {
        Some(phrase) => push_filled(alloc, out, template_of(phrase, fact), fact),
        None => push_visible(out, ask, 48),
    }
}

fn template_of(phrase: &'static Phrase, fact: &Value) -> &'static str {
    match fact.get("value") {
        Some(Value::Number(number)) => match number.as_u64() {
            Some(1) => one_of(phrase, fact),
            _ => phrase.other,
        },
        Some(Value::String(_)) => phrase.other,
        _ => phrase.missing,
    }
}

// What is said where the value is 1.
fn one_of(phrase: &'static Phrase, fact: &Value) -> &'static str {
    let path = key_at(fact, 0);
    if phrase.ask == "cell" && MESSAGES.as_slice().iter().any(|end| path.ends_with(*end)) {
        "{p} is there"
    } else {
        phrase.one
    }
}

fn key_at(fact: &Value, index: usize) -> &str {
    match fact.get("keys").and_then(Value::as_array) {
        Some(keys) => match keys.get(index) {
            Some(key) => key.as_str().unwrap_or("?"),
            None => "?",
        },
        None => "?",
    }
}

fn push_filled(
    alloc: Global,
    out: &mut String,
    template: &str,
    fact: &Value,
) -> Result<(), AllocError> {
    let mut is_first = true;
    for part in template.split('{') {
        if is_first {
            out.push_str(part)?;
        } else if let Some((name, rest)) = part.split_once('}') {
            push_named(alloc, out, name, fact)?;
            out.push_str(rest)?;
        }
        is_first = false;
    }
    Ok(())
}

fn push_named(alloc: Global, out: &mut String, name: &str, fact: &Value) -> Result<(), AllocError> {
    match name {
        "0" => push_quoted(out, key_at(fact, 0)),
        "1" => push_quoted(out, key_at(fact, 1)),
        "2" => push_quoted(out, key_at(fact, 2)),
        "p" => push_visible(out, key_at(fact, 0), 70),
        "k" => out.push_str(if key_at(fact, 0) == "vehicle" {
            "vehicle position"
        } else {
            "trip update"
        }),
        _ => push_value(alloc, out, fact),
    }
}

fn push_value(alloc: Global, out: &mut String, fact: &Value) -> Result<(), AllocError> {
    match fact.get("value") {
        Some(Value::String(text)) => push_quoted(out, text.as_str()),
        Some(value) => {
            let text = value.to_string(alloc)?;
            push_visible(out, text.as_str(), 48)
        }
        None => out.push_str("missing"),
    }
}

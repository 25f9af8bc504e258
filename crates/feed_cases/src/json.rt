//! Asks of feed_json.

use crate::faults::fault_text;
use cases::{say, word};
use feed_codec::{decode, encode};
use feed_json::{JsonFault, from_json, to_json, to_text};
use feed_values::FeedMessage;
use serde_json::Value;
use std::alloc::{AllocError, Global};

// The form's text, made entity by entity or of the whole tree.
fn form(alloc: Global, ask: &str, message: &FeedMessage) -> Result<String, AllocError> {
    if ask == "json-tree" {
        return to_json(alloc, message)?.to_string(alloc);
    }
    to_text(alloc, message)
}

fn put_form(
    alloc: Global,
    ask: &str,
    bytes: &[u8],
    answer: &mut Vec<u8>,
) -> Result<(), AllocError> {
    match decode(alloc, bytes) {
        Ok(message) => answer.extend_from_slice(form(alloc, ask, &message)?.as_bytes()),
        Err(fault) => say(answer, fault_text(alloc, fault)?.as_str()),
    }
}

// What is wrong, and the path where, in quotes.
fn say_json_fault(
    alloc: Global,
    fault: &JsonFault,
    answer: &mut Vec<u8>,
) -> Result<(), AllocError> {
    let (kind, path) = match fault {
        JsonFault::WrongKind(path) => ("wrong kind", path.as_str()),
        JsonFault::UnknownKey(path) => ("unknown key", path.as_str()),
        JsonFault::OutOfRange(path) => ("out of range", path.as_str()),
        JsonFault::MissingKey(path) => ("missing key", path.as_str()),
        JsonFault::Memory => ("out of memory", ""),
    };
    say(answer, format!(in alloc; "{kind} at \"{path}\"")?.as_str())
}

// The canonical bytes of the snapshot that a tree says, or the tree's first fault; `json-fault` leaves the bytes out.
fn put_read(
    alloc: Global,
    ask: &str,
    tree: &Value,
    answer: &mut Vec<u8>,
) -> Result<(), AllocError> {
    match from_json(alloc, tree) {
        Ok(_) if ask == "json-fault" => say(answer, "none"),
        Ok(message) => answer.extend_from_slice(&encode(alloc, &message)?),
        Err(fault) => say_json_fault(alloc, &fault, answer),
    }
}

fn put_json(
    alloc: Global,
    ask: &str,
    given: &[u8],
    answer: &mut Vec<u8>,
) -> Result<(), AllocError> {
    let Ok(text) = str::from_utf8(given) else {
        return say(answer, "not text");
    };
    match Value::from_str(alloc, text) {
        Ok(tree) => put_read(alloc, ask, &tree, answer),
        Err(_) => say(answer, "not JSON"),
    }
}

/// Answers `json`, `json-tree`, `from-json` and `json-fault`.
pub fn answer(
    alloc: Global,
    words: &[String],
    given: &[u8],
    answer: &mut Vec<u8>,
) -> Result<bool, AllocError> {
    let ask = word(words, 0);
    match ask {
        "json" | "json-tree" => put_form(alloc, ask, given, answer)?,
        "from-json" | "json-fault" => put_json(alloc, ask, given, answer)?,
        _ => return Ok(false),
    }
    Ok(true)
}

//! Facts by their lines.

use crate::asks::ask_of;
use cases::word_list;
use feed_values::{CellRef, Items};
use rule_table::{Fact, FactRef};
use std::alloc::{AllocError, Global};

// A text without the quotes around it.
fn unquoted(told: &str) -> Option<&str> {
    match told.strip_prefix("\"") {
        Some(rest) => rest.strip_suffix("\""),
        None => None,
    }
}

fn cell_of(told: &str) -> Option<CellRef<'_>> {
    if told == "missing" {
        return Some(CellRef::Missing);
    }
    if let Some(text) = unquoted(told) {
        return Some(CellRef::Text(text));
    }
    match told.parse() {
        Ok(number) => Some(CellRef::Number(number)),
        Err(_) => None,
    }
}

fn fact_of(alloc: Global, line: &str) -> Result<Option<Fact>, AllocError> {
    let Some((asked, told)) = line.split_once(" is ") else {
        return Ok(None);
    };
    let Some(cell) = cell_of(told) else {
        return Ok(None);
    };
    let words = word_list(alloc, asked)?;
    match ask_of(alloc, &words)? {
        Some(ask) => Ok(Some(FactRef { ask, cell }.to_fact(alloc)?)),
        None => Ok(None),
    }
}

/// The facts of lines, where each is one.
pub fn facts_of(alloc: Global, given: &[u8]) -> Result<Option<Items<Fact>>, AllocError> {
    let Ok(text) = str::from_utf8(given) else {
        return Ok(None);
    };
    let mut facts = Vec::new(alloc);
    for line in text.lines() {
        match fact_of(alloc, line)? {
            Some(fact) => facts.push(fact)?,
            None => return Ok(None),
        }
    }
    Ok(Some(Items::from_vec(facts)))
}

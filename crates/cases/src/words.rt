//! The words of an ask.

use std::alloc::{AllocError, Global};

// Takes what stands between two blanks, and answers whether quotes are open behind it.
fn take_part(
    alloc: Global,
    words: &mut Vec<String>,
    part: &str,
    is_open: bool,
) -> Result<bool, AllocError> {
    let rest = if is_open {
        part
    } else {
        match part.strip_prefix("\"") {
            Some(rest) => rest,
            None => {
                words.push(String::from_str(alloc, part)?)?;
                return Ok(false);
            }
        }
    };
    let text = rest.strip_suffix("\"").unwrap_or(rest);
    match words.last_mut() {
        Some(last) if is_open => {
            last.push_str(" ")?;
            last.push_str(text)?;
        }
        _ => words.push(String::from_str(alloc, text)?)?,
    }
    Ok(!rest.ends_with("\""))
}

/// The words of a line, of which one in quotes may be empty or have blanks.
pub fn word_list(alloc: Global, line: &str) -> Result<Vec<String>, AllocError> {
    let mut words = Vec::new(alloc);
    let mut is_open = false;
    for part in line.split(' ') {
        is_open = take_part(alloc, &mut words, part, is_open)?;
    }
    Ok(words)
}

/// The word at a place, or an empty one where there are fewer.
pub fn word(words: &[String], place: usize) -> &str {
    match words.get(place) {
        Some(word) => word.as_str(),
        None => "",
    }
}

/// The number that the word at a place spells, or 0.
pub fn number(words: &[String], place: usize) -> u64 {
    word(words, place).parse().unwrap_or(0)
}

/// The same as a count of bytes or of items.
pub fn size(words: &[String], place: usize) -> usize {
    word(words, place).parse().unwrap_or(0)
}

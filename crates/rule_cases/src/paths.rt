//! Paths by their texts.

use feed_values::{Path, Slot};
use std::alloc::{AllocError, Global};

// All slots. A caller's proof doesn't see them, which would make it slow.
fn slots() -> &'static [Slot] {
    Slot::all()
}

// The path at an index whose text this is.
fn path_at(alloc: Global, text: &str, index: u32) -> Result<Option<Path>, AllocError> {
    for slot in slots() {
        let path = Path { slot: *slot, index };
        if path.text(alloc)?.as_str() == text {
            return Ok(Some(path));
        }
    }
    Ok(None)
}

/// The path of a text, which may have an index in brackets at its end though its slot leads through no list.
pub fn path_of(alloc: Global, text: &str) -> Result<Option<Path>, AllocError> {
    let Some((before, rest)) = text.split_once("[") else {
        return path_at(alloc, text, 0);
    };
    let index = match rest.split_once("]") {
        Some((index, _)) => index.parse().unwrap_or(0),
        None => 0,
    };
    match path_at(alloc, text, index)? {
        Some(path) => Ok(Some(path)),
        None => path_at(alloc, before, index),
    }
}

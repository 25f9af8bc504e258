//! All slots.

use feed_values::Slot;
use std::alloc::{AllocError, Global};

/// All slots. A caller's proof doesn't see them, which would make it slow.
pub fn slots() -> &'static [Slot] {
    Slot::all()
}

/// The slot of this name, as `S40`.
pub fn slot_named(alloc: Global, name: &str) -> Result<Option<Slot>, AllocError> {
    for slot in slots() {
        if format!(in alloc; "{slot:?}")?.as_str() == name {
            return Ok(Some(*slot));
        }
    }
    Ok(None)
}

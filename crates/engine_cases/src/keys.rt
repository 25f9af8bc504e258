//! Keys of entities in text.

use feed_values::Items;
use rule_table::EntityKey;
use std::alloc::{AllocError, Global};

/// A key as `FEED/ID/OCCURRENCE`.
pub fn key_text(alloc: Global, key: &EntityKey) -> Result<String, AllocError> {
    format!(in alloc; "{}/{}/{}", key.feed, key.id.as_str(), key.occurrence)
}

/// Keys with blanks between them, or `none`.
pub fn keys_text(alloc: Global, keys: &Items<EntityKey>) -> Result<String, AllocError> {
    let mut text = String::new(alloc);
    for key in keys.as_slice() {
        if !text.is_empty() {
            text.push_str(" ")?;
        }
        text.push_str(key_text(alloc, key)?.as_str())?;
    }
    if text.is_empty() {
        text.push_str("none")?;
    }
    Ok(text)
}

//! Keys of entities in text.

use feed_values::Items;
use rule_table::{EntityId, EntityKey};
use std::alloc::{AllocError, Global};

/// The key of a feed and an id, with an occurrence.
pub fn key_of(alloc: Global, feed: u8, id: &str, occurrence: u32) -> Result<EntityKey, AllocError> {
    Ok(EntityKey {
        feed,
        id: EntityId::of(alloc, id)?,
        occurrence,
    })
}

/// A key as `FEED/ID/OCCURRENCE`.
pub fn key_text(alloc: Global, key: &EntityKey) -> Result<String, AllocError> {
    format!(in alloc; "{}/{}/{}", key.feed, key.id.as_str(), key.occurrence)
}

/// Keys as `FEED/ID/OCCURRENCE` with blanks between them, or `none`.
pub fn keys_text(alloc: Global, keys: &Items<EntityKey>) -> Result<String, AllocError> {
    let mut text = String::new(alloc);
    for key in keys.as_slice() {
        if !text.is_empty() {
            text.push_str(" ")?;
        }
        let one = key_text(alloc, key)?;
        text.push_str(one.as_str())?;
    }
    if text.is_empty() {
        text.push_str("none")?;
    }
    Ok(text)
}

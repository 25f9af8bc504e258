//! The keys of a snapshot's entities.
ghost use Rattle.std.specs.Prelude.{◌≡◌, ◌<◌, ◌+◌, ℕ, List, [], false, IfOk, OnOk, map, length, get_or, bytes_eq};
ghost use Rattle.std.specs.Cmp.Lexicographic.{pointwise};
ghost use Rattle.feed_values.specs.Snapshot.{entity_payloads};
ghost use Rattle.rule_table.specs.Counts.{count_in};
ghost use Rattle.rule_history.specs.History.{id_of};
ghost use Rattle.entity_index.specs.Changes.{keyed_in};
ghost use Rattle.entity_index.specs.Tally.{IsTally, came_then, first_key};

use feed_stream::Kept;
use rule_table::{EntityId, EntityKey, count_one};
use std::alloc::{AllocError, Global};
use std::collections::BTreeMap;

/// The keys of a snapshot's entities, by place.
///
/// Where 2^32 entities have one id, it answers want of memory.
pub(crate) fn keys_by_place(
    alloc: Global,
    feed: u8,
    kept: &Kept,
) -> Result<Vec<EntityKey>, AllocError>
    ensures { IfOk result (λ keys. keys.items ≡ map (λ e. e.0) (keyed_in feed kept.now)) }
{
    let mut counts = BTreeMap::new(alloc);
    let mut keys = Vec::new(alloc);
    for place in 0..kept.len() {
        let id = kept.entity_id(place);
        let occurrence = count_one(alloc, &mut counts, id)?;
        let id = EntityId::of(alloc, id)?;
        keys.push(EntityKey {
            feed,
            id,
            occurrence,
        })?;
    }
    Ok(keys)
}

/// The key of an entity of a snapshot as if it were the first one of its id, in the memory of one that isn't needed any more.
pub(crate) fn first_key(
    alloc: Global,
    feed: u8,
    kept: &Kept,
    place: usize,
    spare: Option<EntityKey>,
) -> Result<EntityKey, AllocError>
    requires { place < length (entity_payloads kept.now) }
    ensures { IfOk result (λ key. key ≡ first_key feed (id_of (get_or (entity_payloads kept.now) place []))) }
{
    let id = kept.entity_id(place);
    match spare {
        Some(mut key) => {
            key.feed = feed;
            key.id.set(alloc, id)?;
            key.occurrence = 0;
            Ok(key)
        }
        None => Ok(EntityKey {
            feed,
            id: EntityId::of(alloc, id)?,
            occurrence: 0,
        }),
    }
}

/// No id was counted.
pub(crate) fn none_counted(alloc: Global) -> BTreeMap<String, u32>
    ensures { (id : List ℕ) → count_in result id ≡ 0 }
{
    BTreeMap::new(alloc)
}

/// How many of its id stand before an entity. Where the first one of that id is held, what is held tells whether it came, and it isn't counted. So an
/// id that stands once costs no memory.
///
/// Where 2^32 entities have one id, it answers want of memory.
pub(crate) fn next_occurrence(
    alloc: Global,
    counts: &mut BTreeMap<String, u32>,
    id: &str,
    first_came: Option<bool>,
) -> Result<u32, AllocError>
    ensures occurrence { IfOk result (λ k. (n : ℕ) → IsTally first_came n (count_in counts.old id.now) → k ≡ n) }
    ensures here { OnOk result ((n : ℕ) → IsTally first_came n (count_in counts.old id.now) → IsTally (came_then first_came) (n + 1) (count_in counts.new id.now)) }
    ensures others { OnOk result ((other : List ℕ) → bytes_eq id.now other ≡ false → count_in counts.new other ≡ count_in counts.old other) }
{
    match first_came {
        None => count_one(alloc, counts, id),
        Some(false) => Ok(0),
        Some(true) => {
            let before = count_one(alloc, counts, id)?;
            before.checked_add(1).ok_or(AllocError)
        }
    }
}

/// Whether the entities of two snapshots at a place have one id. Where their bytes are the same they have, and no id is read.
fn have_same_id(old: &Kept, new: &Kept, place: usize) -> bool
    requires old { place < length (entity_payloads old.now) }
    requires new { place < length (entity_payloads new.now) }
    ensures { result ≡ bytes_eq (id_of (get_or (entity_payloads old.now) place [])) (id_of (get_or (entity_payloads new.now) place [])) }
{
    if old.entity(place) == new.entity(place) {
        return true;
    }
    old.entity_id(place) == new.entity_id(place)
}

/// Whether two snapshots have entities of the same ids in the same order, which then have the same keys.
pub(crate) fn have_same_ids(old: &Kept, new: &Kept) -> bool
    ensures { result ≡ pointwise bytes_eq (map id_of (entity_payloads old.now)) (map id_of (entity_payloads new.now)) }
{
    if old.len() != new.len() {
        return false;
    }
    for place in 0..new.len() {
        if !have_same_id(old, new, place) {
            return false;
        }
    }
    true
}

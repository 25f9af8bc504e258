//! How often ids were counted, by which the entities of a snapshot have their keys.
ghost use Rattle.std.specs.Prelude.{◌≡◌, ◌+◌, List, ℕ, IfOk, OnOk, bytes_eq, if◌then◌else◌};
ghost use Rattle.rule_table.specs.Counts.{count_in};

use std::alloc::{AllocError, Global};
use std::collections::BTreeMap;

/// How often an id was counted; then it is counted once more. Where it was counted 2^32 - 1 times, it answers want of memory.
pub fn count_one(
    alloc: Global,
    counts: &mut BTreeMap<String, u32>,
    id: &str,
) -> Result<u32, AllocError>
    ensures before { IfOk result (λ n. n ≡ count_in counts.old id.now) }
    ensures after { OnOk result ((other : List ℕ) → count_in counts.new other ≡ (if bytes_eq id.now other then 1 else 0) + count_in counts.old other) }
{
    let before = counts.get(id).copied().unwrap_or(0);
    if before == u32::MAX {
        return Err(AllocError);
    }
    let id = String::from_str(alloc, id)?;
    counts.insert(id, before + 1)?;
    Ok(before)
}

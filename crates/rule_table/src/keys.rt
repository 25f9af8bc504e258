//! Keys of entities, each once.
ghost use Rattle.std.specs.Prelude.{◌≡◌, IfOk};
ghost use Rattle.std.specs.List.Sorted.{IsStrictlySortedBy};
ghost use Rattle.rule_table.specs.Order.{key_cmp};

use crate::key::EntityKey;
use feed_values::Items;
use std::alloc::{AllocError, Global};
use std::collections::BTreeSet;

/// The keys of a set, in order.
pub fn keys_in_order(
    alloc: Global,
    keys: BTreeSet<EntityKey>,
) -> Result<Items<EntityKey>, AllocError>
    ensures all { IfOk result (λ items. items ≡ keys.keys) }
    ensures ordered { IfOk result (λ items. IsStrictlySortedBy key_cmp items) }
{
    // That a list can hold them stands in what the length promises, which is named so that the check has it at hand.
    let _count = keys.len();
    let items = keys.into_iter().collect(alloc)?;
    Ok(Items::from_vec(items))
}

//! Keys of entities, each once.
ghost use Rattle.std.specs.Prelude.{◌≡◌, ◌||◌, OnOk};
ghost use Rattle.std.specs.BTreeSet.{contains};
ghost use Rattle.rule_table.specs.Order.{key_cmp};
ghost use Rattle.rule_table.specs.declared.key.EntityKey.{EntityKey as Key};

use rule_table::EntityKey;
use std::alloc::AllocError;
use std::collections::BTreeSet;

/// Puts copies of keys into a set.
pub(crate) fn put_copies(
    keys: &mut BTreeSet<EntityKey>,
    more: &BTreeSet<EntityKey>,
) -> Result<(), AllocError>
    ensures { OnOk result ((k : Key) → contains key_cmp keys.new k ≡ (contains key_cmp keys.old k || contains key_cmp more.now k)) }
{
    for key in more {
        keys.insert(key.clone()?)?;
    }
    Ok(())
}

//! What closes at entities that are gone.
ghost use Rattle.std.specs.Prelude.{◌≡◌, ℕ, OnOk, if◌then◌else◌};
ghost use Rattle.rule_table.specs.declared.key.EntityKey.{EntityKey as Key};
ghost use Rattle.rule_table.specs.Order.{key_cmp, same_key};
ghost use Rattle.rule_table.specs.Rises.{Rises};
ghost use Rattle.entity_parts.specs.part_laws.Touched.{is_among};
ghost use Rattle.entity_parts.specs.standing_walks.Walked.{IsInOrder};
ghost use Rattle.touched_entities.specs.Again.{list_under};
ghost use Rattle.touched_entities.specs.Told.{AreTolds, header_told, told_at};
ghost use Rattle.touched_entities.specs.Left.{told_left};

use crate::again::list_under;
use crate::tolds::Tolds;
use entity_index::EntityIndex;
use rule_table::EntityKey;
use std::alloc::{AllocError, Global};

/// Puts in what closes at an entity that is gone, part by part.
fn close_one(
    alloc: Global,
    key: &EntityKey,
    index: &EntityIndex,
    tolds: &mut Tolds,
) -> Result<(), AllocError>
    requires { (part : ℕ) → IsInOrder (list_under index.now key.now part) }
    ensures own { OnOk result (AreTolds tolds.old → AreTolds tolds.new) }
    ensures told { OnOk result ((k : Key) → told_at tolds.new k ≡ (if same_key key.now k then told_left index.now k (told_at tolds.old k) else told_at tolds.old k)) }
    ensures headers { OnOk result ((f : ℕ) → header_told tolds.new f ≡ header_told tolds.old f) }
{
    tolds.put(alloc, key, list_under(index, key, 0), &[])?;
    tolds.put(alloc, key, list_under(index, key, 1), &[])?;
    tolds.put(alloc, key, list_under(index, key, 2), &[])?;
    tolds.put(alloc, key, list_under(index, key, 3), &[])?;
    Ok(())
}

/// Puts in what closes at entities that are gone. Their keys are in order.
///
/// After want of memory what was put in is of no further use.
pub fn close_gone(
    alloc: Global,
    keys: &[EntityKey],
    index: &EntityIndex,
    tolds: &mut Tolds,
) -> Result<(), AllocError>
    requires keys { Rises key_cmp keys.now }
    requires ordered { (k : Key) (part : ℕ) → IsInOrder (list_under index.now k part) }
    ensures own { OnOk result (AreTolds tolds.old → AreTolds tolds.new) }
    ensures told { OnOk result ((k : Key) → told_at tolds.new k ≡ (if is_among keys.now k then told_left index.now k (told_at tolds.old k) else told_at tolds.old k)) }
    ensures headers { OnOk result ((f : ℕ) → header_told tolds.new f ≡ header_told tolds.old f) }
{
    for key in keys {
        close_one(alloc, key, index, tolds)?;
    }
    Ok(())
}

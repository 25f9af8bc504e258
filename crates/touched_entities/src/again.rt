//! One part of some entities judged again, where they are held.
ghost use Rattle.std.specs.Prelude.{◌≡◌, ◌+◌, ◌*◌, ◌<◌, ◌≤◌, ℕ, true, is_some, length, IfOk, OnOk, if◌then◌else◌};
ghost use Rattle.feed_values.specs.Views.{entity_value};
ghost use Rattle.rule_table.specs.declared.key.EntityKey.{EntityKey as Key};
ghost use Rattle.rule_table.specs.Order.{key_cmp, same_key};
ghost use Rattle.rule_table.specs.Rises.{Rises};
ghost use Rattle.engine_laws.specs.Standings.{renewed};
ghost use Rattle.entity_parts.specs.standing_walks.Walked.{IsInOrder};
ghost use Rattle.entity_parts.specs.part_laws.Touched.{is_among};
ghost use Rattle.touched_entities.specs.Again.{AreSameFeeds, IsPassed, list_under, lists_at, payload_at, renewed_under, told_renewed};
ghost use Rattle.touched_entities.specs.Told.{AreTolds, header_told, plus, told_at, told_between};

use crate::tolds::Tolds;
use entity_index::EntityIndex;
use entity_parts::{EntityPart, Standing, renew};
use feed_values::{Entity, Items};
use rt_outside::Steps;
use rule_table::EntityKey;
use std::alloc::{AllocError, Global};
use std::sync::ledger::Ledger;

/// A part to be judged again: its number among the four lists of an entity, what judges it, and how many snapshots were taken.
#[derive(Clone, Copy)]
pub struct Renewal<'a, J: EntityPart> {
    pub alloc: Global,
    pub part: u8,
    pub judge: &'a J,
    pub applied: u64,
}

/// The list of a number under a key.
pub(crate) fn list_under<'a>(index: &'a EntityIndex, key: &EntityKey, part: u8) -> &'a [Standing]
    requires { part < 4 }
    ensures { result.now ≡ list_under index.now key.now part }
{
    match index.part_of(key, part) {
        None => &[],
        Some(list) => list.as_slice(),
    }
}

/// What is found at an entity in the place of the list before it, with what that opens and closes.
fn renew_one<J: EntityPart, L: Ledger>(
    renewal: &Renewal<'_, J>,
    key: &EntityKey,
    entity: &Entity,
    old: &[Standing],
    tolds: &mut Tolds,
    tests: &mut Steps<L>,
) -> Result<Items<Standing>, AllocError>
    requires { IsInOrder old.now }
    ensures list { IfOk result (λ list. list ≡ renewed old.now renewal.now.applied (J.found renewal.now.judge.now key.now (entity_value entity.now))) }
    ensures own { OnOk result (AreTolds tolds.old → AreTolds tolds.new) }
    ensures told { OnOk result ((k : Key) → told_at tolds.new k
        ≡ (if same_key key.now k then plus (told_at tolds.old k) (told_between old.now (renewed old.now renewal.now.applied (J.found renewal.now.judge.now key.now (entity_value entity.now)))) else told_at tolds.old k)) }
    ensures headers { OnOk result ((f : ℕ) → header_told tolds.new f ≡ header_told tolds.old f) }
    ensures ticked { OnOk result (tests.new ≡ tests.old + J.count renewal.now.judge.now) }
    ensures most { tests.new ≤ tests.old + J.count renewal.now.judge.now }
{
    let found = renewal.judge.judge(renewal.alloc, key, entity, tests)?;
    let list = renew(renewal.alloc, old, found, renewal.applied)?;
    tolds.put(renewal.alloc, key, old, list.as_slice())?;
    Ok(list)
}

/// The same where it is held.
fn judge_one<J: EntityPart, L: Ledger>(
    renewal: &Renewal<'_, J>,
    key: &EntityKey,
    index: &mut EntityIndex,
    tolds: &mut Tolds,
    tests: &mut Steps<L>,
) -> Result<(), AllocError>
    requires part { renewal.now.part < 4 }
    requires held { is_some (payload_at index.old key.now) ≡ true }
    requires ordered { IsInOrder (list_under index.old key.now renewal.now.part) }
    ensures lists { OnOk result ((k : Key) → lists_at index.new k ≡ (if same_key key.now k then renewed_under renewal.now.part renewal.now.applied (J.found renewal.now.judge.now) index.old k else lists_at index.old k)) }
    ensures feeds { OnOk result (AreSameFeeds index.old index.new) }
    ensures own { OnOk result (AreTolds tolds.old → AreTolds tolds.new) }
    ensures told { OnOk result ((k : Key) → told_at tolds.new k
        ≡ (if same_key key.now k then plus (told_at tolds.old k) (told_renewed renewal.now.part renewal.now.applied (J.found renewal.now.judge.now) index.old k) else told_at tolds.old k)) }
    ensures headers { OnOk result ((f : ℕ) → header_told tolds.new f ≡ header_told tolds.old f) }
    ensures ticked { OnOk result (tests.new ≡ tests.old + J.count renewal.now.judge.now) }
    ensures most { tests.new ≤ tests.old + J.count renewal.now.judge.now }
{
    let Some(entity) = index.entity_of(key) else {
        unreachable!();
    };
    let old = list_under(index, key, renewal.part);
    let was_empty = old.is_empty();
    let list = renew_one(renewal, key, entity, old, tolds, tests)?;
    if was_empty && list.as_slice().is_empty() {
        return Ok(());
    }
    index.set_part(key, renewal.part, list);
    Ok(())
}

/// Judges a part of some entities again: what is found takes the place of the list that was held, each finding with the number since when its rule
/// stands at its place, and what that opens and closes is put in.
///
/// The keys are in order, and entities are held under them. After want of memory what is held and told is of no further use.
pub fn judge_again<J: EntityPart, L: Ledger>(
    renewal: &Renewal<'_, J>,
    keys: &[EntityKey],
    index: &mut EntityIndex,
    tolds: &mut Tolds,
    tests: &mut Steps<L>,
) -> Result<(), AllocError>
    requires part { renewal.now.part < 4 }
    requires keys { Rises key_cmp keys.now }
    requires held { (k : Key) → is_among keys.now k ≡ true → is_some (payload_at index.old k) ≡ true }
    requires ordered { (k : Key) → IsInOrder (list_under index.old k renewal.now.part) }
    ensures passed { OnOk result (IsPassed renewal.now.part renewal.now.applied (J.found renewal.now.judge.now) keys.now index.old index.new tolds.old tolds.new) }
    ensures ticked { OnOk result (tests.new ≡ tests.old + J.count renewal.now.judge.now * length keys.now) }
    ensures most { tests.new ≤ tests.old + J.count renewal.now.judge.now * length keys.now }
{
    for key in keys {
        judge_one(renewal, key, index, tolds, tests)?;
    }
    Ok(())
}

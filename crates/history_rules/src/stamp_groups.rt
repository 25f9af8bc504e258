//! The keys under each moment.
ghost use Rattle.std.specs.Prelude.{◌≡◌, ◌≤◌, ◌&&◌, ◌||◌, not, OnOk, IsTrue, false};
ghost use Rattle.std.specs.Ordering.{is_eq, eq_by_cmp};
ghost use Rattle.std.specs.BTreeSet.{contains};
ghost use Rattle.std.specs.List.{list_any};
ghost use Rattle.rule_table.specs.Order.{key_cmp};
ghost use Rattle.rule_table.specs.declared.key.EntityKey.{EntityKey as Key};
ghost use Rattle.history_rules.specs.StampGroups.{moment_cmp, has_at, between};
ghost use Rattle.history_rules.specs.Stamps.{stamps_of};
ghost use Rattle.history_rules.specs.declared.moment.Moment.{Moment as At};

use crate::keys::put_copies;
use crate::moment::Moment;
use rule_table::EntityKey;
use std::alloc::{AllocError, Global};
use std::collections::{BTreeMap, BTreeSet};
use std::ops::Bound;

/// Puts a key under a moment.
pub(crate) fn put_stamp(
    alloc: Global,
    groups: &mut BTreeMap<Moment, BTreeSet<EntityKey>>,
    moment: Moment,
    key: EntityKey,
) -> Result<(), AllocError>
    ensures { OnOk result ((at : At) (k : Key) → has_at groups.new at k ≡ ((is_eq (moment_cmp moment at) && eq_by_cmp key_cmp key k) || has_at groups.old at k)) }
{
    match groups.get_mut(&moment) {
        Some(group) => {
            group.insert(key)?;
            Ok(())
        }
        None => {
            let mut group = BTreeSet::new(alloc);
            group.insert(key)?;
            groups.insert(moment, group)?;
            Ok(())
        }
    }
}

/// Takes a key out from under a moment, and says whether that left a group with no key.
fn take_key(
    groups: &mut BTreeMap<Moment, BTreeSet<EntityKey>>,
    moment: Moment,
    key: &EntityKey,
) -> bool
    ensures keys { (at : At) (k : Key) → has_at groups.new at k ≡ (not (is_eq (moment_cmp moment at) && eq_by_cmp key_cmp key.now k) && has_at groups.old at k) }
    ensures empty { IsTrue result → (k : Key) → has_at groups.new moment k ≡ false }
{
    match groups.get_mut(&moment) {
        Some(group) => {
            group.remove(key);
            group.is_empty()
        }
        None => false,
    }
}

/// Takes a key out from under a moment. A group with no key goes, so that the groups are those of the keys held.
pub(crate) fn take_stamp(
    groups: &mut BTreeMap<Moment, BTreeSet<EntityKey>>,
    moment: Moment,
    key: &EntityKey,
)
    ensures { (at : At) (k : Key) → has_at groups.new at k ≡ (not (is_eq (moment_cmp moment at) && eq_by_cmp key_cmp key.now k) && has_at groups.old at k) }
{
    if take_key(groups, moment, key) {
        groups.remove(&moment);
    }
}

/// Puts the keys under the moments after one and up to another into a set.
pub(crate) fn put_between(
    keys: &mut BTreeSet<EntityKey>,
    groups: &BTreeMap<Moment, BTreeSet<EntityKey>>,
    low: Moment,
    high: Moment,
) -> Result<(), AllocError>
    requires { (low.feed ≡ high.feed) × (low.stamp ≤ high.stamp) }
    ensures { OnOk result ((k : Key) → contains key_cmp keys.new k ≡ (contains key_cmp keys.old k || list_any (between low high k) (stamps_of groups.now.entries))) }
{
    for (_, group) in groups.range((Bound::Excluded(low), Bound::Included(high))) {
        put_copies(keys, group)?;
    }
    Ok(())
}

//! The timestamps of all entities.
ghost use Rattle.std.specs.Prelude.{◌≡◌, ◌≤◌, ◌^◌, ◌&&◌, ◌||◌, not, [], IfOk};
ghost use Rattle.std.specs.List.{list_any};
ghost use Rattle.std.specs.List.Sorted.{IsStrictlySortedBy};
ghost use Rattle.rule_table.specs.Order.{key_cmp, same_key};
ghost use Rattle.rule_table.specs.declared.key.EntityKey.{EntityKey as Key};
ghost use Rattle.history_rules.specs.Stamps.{Stamp, stamp_of, same_stamp, holds, is_above};

use crate::moment::Moment;
use crate::stamp_groups::{put_between, put_stamp, take_stamp};
use feed_values::Items;
use rule_table::{EntityKey, keys_in_order};
use std::alloc::{AllocError, Global};
use std::collections::{BTreeMap, BTreeSet};
use std::marker::Model;

/// A set of timestamps of entities, which contracts see as a list of stamps.
#[derive(Drop)]
pub struct StampIndex {
    alloc: Global,
    groups: BTreeMap<Moment, BTreeSet<EntityKey>>,
}

impl Model for StampIndex {
    ghost use Rattle.std.specs.Prelude.{List};
    ghost use Rattle.history_rules.specs.Stamps.{Stamp, stamps_of};
    ghost use Rattle.history_rules.specs.StampGroups.{AreSmall};

    ghost Value = { List Stamp };

    ghost view = { λ a. stamps_of a.groups.entries };

    ghost invariant = { λ a. AreSmall (stamps_of a.groups.entries) };
}

impl StampIndex {
    /// An index that holds nothing. It takes no memory.
    pub fn new(alloc: Global) -> StampIndex
        ensures { result ≡ [] }
    {
        StampIndex {
            alloc,
            groups: BTreeMap::new(alloc),
        }
    }

    /// Puts in the timestamp of an entity of a feed; one that is held is held once. After want of memory the index is gone.
    pub fn add(self, feed: u8, stamp: u64, key: EntityKey) -> Result<StampIndex, AllocError>
        ensures { IfOk result (λ index. (s : Stamp) → holds index s ≡ (same_stamp (stamp_of feed stamp key) s || holds self s)) }
    {
        let StampIndex { alloc, mut groups } = self;
        let _before = groups.len();
        put_stamp(alloc, &mut groups, Moment { feed, stamp }, key)?;
        let _after = groups.len();
        Ok(StampIndex { alloc, groups })
    }

    /// Takes out the timestamp of an entity of a feed. It takes no memory.
    pub fn take_out(&mut self, feed: u8, stamp: u64, key: &EntityKey)
        ensures { (s : Stamp) → holds self.new s ≡ (not (same_stamp (stamp_of feed stamp key.now) s) && holds self.old s) }
    {
        let _before = self.groups.len();
        take_stamp(&mut self.groups, Moment { feed, stamp }, key);
        let _after = self.groups.len();
    }

    /// The keys of the feed's stamps above a bound, each once, in order.
    pub fn above(
        &self,
        alloc: Global,
        feed: u8,
        bound: u128,
    ) -> Result<Items<EntityKey>, AllocError>
        ensures ordered { IfOk result (λ keys. IsStrictlySortedBy key_cmp keys) }
        ensures above { IfOk result (λ keys. (k : Key) → list_any (same_key k) keys ≡ list_any (λ s. is_above feed bound s && same_key k s.key) self.now) }
    {
        match u64::try_from(bound) {
            Ok(bound) => self.above_stamp(alloc, feed, bound),
            Err(_) => self.above_all(alloc, feed, bound),
        }
    }

    /// No stamp is above what 64 bits don't hold.
    fn above_all(
        &self,
        alloc: Global,
        feed: u8,
        bound: u128,
    ) -> Result<Items<EntityKey>, AllocError>
        requires { 2 ^ 64 ≤ bound }
        ensures ordered { IfOk result (λ keys. IsStrictlySortedBy key_cmp keys) }
        ensures above { IfOk result (λ keys. (k : Key) → list_any (same_key k) keys ≡ list_any (λ s. is_above feed bound s && same_key k s.key) self.now) }
    {
        let _ = &self.groups;
        let keys = BTreeSet::new(alloc);
        let found = keys_in_order(alloc, keys)?;
        Ok(found)
    }

    fn above_stamp(
        &self,
        alloc: Global,
        feed: u8,
        bound: u64,
    ) -> Result<Items<EntityKey>, AllocError>
        ensures ordered { IfOk result (λ keys. IsStrictlySortedBy key_cmp keys) }
        ensures above { IfOk result (λ keys. (k : Key) → list_any (same_key k) keys ≡ list_any (λ s. is_above feed bound s && same_key k s.key) self.now) }
    {
        let low = Moment { feed, stamp: bound };
        let high = Moment {
            feed,
            stamp: u64::MAX,
        };
        let mut keys = BTreeSet::new(alloc);
        put_between(&mut keys, &self.groups, low, high)?;
        let found = keys_in_order(alloc, keys)?;
        Ok(found)
    }
}

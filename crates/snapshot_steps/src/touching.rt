//! The keys of the entities that are judged again.
ghost use Rattle.std.specs.Prelude.{◌≡◌, ◌<◌, ◌||◌, IfOk, OnOk};
ghost use Rattle.std.specs.BTreeSet.{contains};
ghost use Rattle.std.specs.List.{list_any};
ghost use Rattle.feed_values.specs.Views.{natural};
ghost use Rattle.rule_table.specs.declared.key.EntityKey.{EntityKey as Key};
ghost use Rattle.rule_table.specs.Order.{key_cmp, same_key};
ghost use Rattle.rule_table.specs.Rises.{Rises as AreRising};
ghost use Rattle.rule_history.specs.Changed.{keeps_bounds, same_number};
ghost use Rattle.rule_history.specs.History.{IsTaken};
ghost use Rattle.held_feeds.specs.part_laws.Touched.{is_among};
ghost use Rattle.history_rules.specs.HeldPeaks.{peak_of};
ghost use Rattle.held_feeds.specs.entity_index.Held.{entities_before};
ghost use Rattle.vehicle_peaks.specs.Rises.{AreRises};
ghost use Rattle.held_feeds.specs.row_changes.Touched.{is_over, is_over_given};
ghost use Rattle.held_feeds.specs.cached_laws.State.{IsState, feed_of};
ghost use Rattle.held_feeds.specs.cached_laws.Keys.{AreBoundedKeys, AreKeys, AreTouched, IsBoundOf, bytes_before, is_fresh_key};
ghost use Rattle.held_feeds.specs.States.{state_of};
ghost use Rattle.snapshot_steps.specs.Coming.{IsComing};
ghost use Rattle.snapshot_steps.specs.Moved.{IsMoved};
ghost use Rattle.snapshot_steps.specs.Taken.{snapshot_of};

use crate::coming::Coming;
use crate::moving::Moved;
use crate::taken::Taken;
use feed_values::Items;
use held_feeds::{HeldFeeds, bounded_keys, keys_above, low_bound, paired_keys};
use history_rules::StampIndex;
use rule_table::{EntityKey, keys_in_order};
use std::alloc::{AllocError, Global};
use std::collections::BTreeSet;
use vehicle_peaks::Rises;

/// The keys of each part, in order: the entities that are new or have other bytes, and for the second, third and fourth part those that rows, bounds or
/// peaks concern.
#[derive(Drop)]
pub struct Touched {
    pub local: Items<EntityKey>,
    pub paired: Items<EntityKey>,
    pub bounded: Items<EntityKey>,
    pub peaked: Items<EntityKey>,
}

fn put_copies(keys: &mut BTreeSet<EntityKey>, some: &[EntityKey]) -> Result<(), AllocError>
    ensures { OnOk result ((key : Key) → contains key_cmp keys.new key ≡ (contains key_cmp keys.old key || list_any (same_key key) some.now)) }
{
    for key in some {
        keys.insert(key.clone()?)?;
    }
    Ok(())
}

fn put_keys(keys: &mut BTreeSet<EntityKey>, more: Items<EntityKey>) -> Result<(), AllocError>
    ensures { OnOk result ((key : Key) → contains key_cmp keys.new key ≡ (contains key_cmp keys.old key || list_any (same_key key) more)) }
{
    for key in more.into_vec() {
        keys.insert(key)?;
    }
    Ok(())
}

/// Some keys in order, each once.
fn in_order(alloc: Global, some: &[EntityKey]) -> Result<Items<EntityKey>, AllocError>
    ensures { IfOk result (AreKeys (is_among some.now)) }
{
    let mut keys = BTreeSet::new(alloc);
    put_copies(&mut keys, some)?;
    let found = keys_in_order(alloc, keys)?;
    Ok(found)
}

/// Some keys and others in order, each once.
fn put_in_order(
    alloc: Global,
    some: &[EntityKey],
    more: Items<EntityKey>,
) -> Result<Items<EntityKey>, AllocError>
    ensures { IfOk result (AreKeys (λ key. is_among some.now key || is_among more key)) }
{
    let mut keys = BTreeSet::new(alloc);
    put_copies(&mut keys, some)?;
    put_keys(&mut keys, more)?;
    let found = keys_in_order(alloc, keys)?;
    Ok(found)
}

/// Copies of some keys, in their order.
fn copied(alloc: Global, some: &[EntityKey]) -> Result<Items<EntityKey>, AllocError>
    ensures { IfOk result (λ keys. keys ≡ some.now) }
{
    let mut keys = Items::new(alloc);
    for key in some {
        keys.push(key.clone()?)?;
    }
    Ok(keys)
}

/// Some keys in order and others, all in order, each once. Where there are no others, none is compared.
fn joined(
    alloc: Global,
    some: &[EntityKey],
    more: Items<EntityKey>,
) -> Result<Items<EntityKey>, AllocError>
    requires { AreRising key_cmp some.now }
    ensures { IfOk result (AreKeys (λ key. is_among some.now key || is_among more key)) }
{
    if more.as_slice().is_empty() {
        let keys = copied(alloc, some)?;
        return Ok(keys);
    }
    let keys = put_in_order(alloc, some, more)?;
    Ok(keys)
}

fn is_same_timestamp(a: Option<u64>, b: Option<u64>) -> bool
    ensures { result ≡ same_number (natural a) (natural b) }
{
    match (a, b) {
        (None, None) => true,
        (Some(a), Some(b)) => a == b,
        _ => false,
    }
}

/// Whether a snapshot has the header's timestamp and the moment of the one before it.
fn keeps_bounds(held: &HeldFeeds, taken: &Taken, coming: &Coming) -> bool
    requires { IsComing (snapshot_of taken.now) held.now.index coming.now }
    ensures { result ≡ keeps_bounds (snapshot_of taken.now) (feed_of (state_of held.now) taken.now.feed).last }
{
    match &coming.before {
        None => false,
        Some(before) => {
            is_same_timestamp(coming.header.timestamp, before.timestamp)
                && taken.moment == held.moment_of(taken.feed)
        }
    }
}

/// The lower bound of the snapshot before, if there is one.
fn bound_before(held: &HeldFeeds, taken: &Taken, coming: &Coming) -> Option<u128>
    requires { IsComing (snapshot_of taken.now) held.now.index coming.now }
    ensures { IsBoundOf result (feed_of (state_of held.now) taken.now.feed).last }
{
    match &coming.before {
        None => None,
        Some(before) => Some(low_bound(before.timestamp, held.moment_of(taken.feed))),
    }
}

/// The keys of a feed with a timestamp above a bound, where there is one, or above another.
fn over_bounds(
    alloc: Global,
    stamps: &StampIndex,
    feed: u8,
    before: Option<u128>,
    now: u128,
) -> Result<Items<EntityKey>, AllocError>
    ensures { IfOk result (λ keys. (key : Key) → is_among keys key ≡ (is_over_given feed before stamps.now key || is_over feed now stamps.now key)) }
{
    let earlier = keys_above(alloc, stamps, feed, before)?;
    let keys = bounded_keys(alloc, stamps, feed, now, earlier)?;
    Ok(keys)
}

/// The keys of the part by bounds.
fn touch_bounded(
    alloc: Global,
    held: &HeldFeeds,
    taken: &Taken,
    coming: &Coming,
    moved: &Moved,
    fresh: &[EntityKey],
) -> Result<Items<EntityKey>, AllocError>
    requires coming { IsComing (snapshot_of taken.now) held.now.index coming.now }
    requires moved { IsMoved (snapshot_of taken.now) (feed_of (state_of held.now)) moved.now }
    requires fresh { AreKeys (is_fresh_key (state_of held.now) (snapshot_of taken.now)) fresh.now }
    ensures { IfOk result (AreBoundedKeys (state_of held.now) (snapshot_of taken.now)) }
{
    let before = bound_before(held, taken, coming);
    let now = low_bound(coming.header.timestamp, taken.moment);
    if keeps_bounds(held, taken, coming) {
        let keys = copied(alloc, fresh)?;
        return Ok(keys);
    }
    let over = over_bounds(alloc, &moved.rows.stamps, taken.feed, before, now)?;
    let keys = joined(alloc, fresh, over)?;
    Ok(keys)
}

/// The keys of all parts.
pub fn touch(
    alloc: Global,
    held: &HeldFeeds,
    taken: &Taken,
    coming: &Coming,
    moved: &Moved,
    rises: &Rises,
) -> Result<Touched, AllocError>
    requires state { IsState (state_of held.now) }
    requires taken { IsTaken (snapshot_of taken.now) }
    requires feed { taken.now.feed < 16 }
    requires coming { IsComing (snapshot_of taken.now) held.now.index coming.now }
    requires moved { IsMoved (snapshot_of taken.now) (feed_of (state_of held.now)) moved.now }
    requires rises { AreRises (entities_before taken.now.feed (bytes_before (state_of held.now) taken.now.feed)) (peak_of held.now.peaks taken.now.feed) rises.now }
    ensures { IfOk result (λ t. AreTouched (state_of held.now) (snapshot_of taken.now) t.local t.paired t.bounded t.peaked) }
{
    let local = in_order(alloc, coming.changes.keys.as_slice())?;
    let fresh = local.as_slice();
    let concerned = paired_keys(alloc, &moved.rows.pairs, &moved.ids, moved.before)?;
    let paired = joined(alloc, fresh, concerned)?;
    let bounded = touch_bounded(alloc, held, taken, coming, moved, fresh)?;
    let gone = coming.changes.gone.as_slice();
    let raised = rises.keys(alloc, &held.index, taken.feed, gone, fresh)?;
    let peaked = joined(alloc, fresh, raised)?;
    Ok(Touched {
        local,
        paired,
        bounded,
        peaked,
    })
}

//! Vehicles whose peak is raised.
ghost use Rattle.std.specs.Prelude.{◌≡◌, ◌&&◌, ℕ, List, IfOk, not};
ghost use Rattle.std.specs.List.{list_any};
ghost use Rattle.std.specs.List.Sorted.{IsStrictlySortedBy};
ghost use Rattle.rule_table.specs.Order.{key_cmp, same_key};
ghost use Rattle.rule_table.specs.Rises.{Rises as AreRising};
ghost use Rattle.rule_table.specs.declared.key.EntityKey.{EntityKey as Key};
ghost use Rattle.history_rules.specs.HeldPeaks.{peak_of, ids_seen};
ghost use Rattle.entity_index.specs.Held.{entities_before, held_at};
ghost use Rattle.vehicle_peaks.specs.Rises.{AreRises, gives_rise, with_rises};
ghost use Rattle.vehicle_peaks.specs.Held.{payload_in};

use crate::gathering::rising_stamps;
use crate::keys::{raised_keys, take_out};
use entity_index::EntityIndex;
use feed_values::Items;
use history_rules::Peaks;
use rule_table::{EntityKey, keys_in_order};
use std::alloc::{AllocError, Global};
use std::collections::BTreeMap;
use std::marker::Model;

/// The vehicles of a feed whose peak its last snapshot raises once another one comes, each with its new peak, in POSIX seconds.
#[derive(Drop)]
pub struct Rises {
    stamps: BTreeMap<String, u64>,
}

impl Model for Rises {
    ghost use Rattle.history_rules.specs.HeldPeaks.{ids_seen};
    ghost use Rattle.vehicle_peaks.specs.Rises.{RisesById};

    ghost Value = { RisesById };

    ghost view = { λ s. ids_seen s.stamps };
}

/// Raises the peaks of a feed to timestamps.
fn raise_all(stamps: &BTreeMap<String, u64>, peaks: Peaks, feed: u8) -> Result<Peaks, AllocError>
    ensures { IfOk result (λ p. (f : ℕ) (v : List ℕ) → peak_of p f v ≡ with_rises (ids_seen stamps.now) feed (peak_of peaks) f v) }
{
    let mut raised = peaks;
    for (vehicle, stamp) in stamps {
        raised.raise_in(feed, vehicle.as_str(), *stamp)?;
    }
    Ok(raised)
}

impl Rises {
    /// Those of the last snapshot of a feed, by the peaks of the snapshots before it; none where the feed has no snapshot.
    pub fn of(
        alloc: Global,
        peaks: &Peaks,
        index: &EntityIndex,
        feed: u8,
    ) -> Result<Rises, AllocError>
        ensures { IfOk result (AreRises (entities_before feed (held_at index.now feed).bytes) (peak_of peaks.now feed)) }
    {
        let stamps = rising_stamps(alloc, peaks, index, feed)?;
        Ok(Rises { stamps })
    }

    /// Raises the peaks of a feed. After want of memory they are gone.
    pub fn raise(&self, peaks: Peaks, feed: u8) -> Result<Peaks, AllocError>
        ensures { IfOk result (λ p. (f : ℕ) (v : List ℕ) → peak_of p f v ≡ with_rises self.now feed (peak_of peaks) f v) }
    {
        raise_all(&self.stamps, peaks, feed)
    }

    /// The keys of the feed's entities whose vehicle is one of these, but for those that are gone, and for those, in order, that are judged again anyway
    /// since they are fresh.
    pub fn keys(
        &self,
        alloc: Global,
        index: &EntityIndex,
        feed: u8,
        gone: &[EntityKey],
        fresh: &[EntityKey],
    ) -> Result<Items<EntityKey>, AllocError>
        requires { AreRising key_cmp fresh.now }
        ensures among { IfOk result (λ keys. (key : Key) → list_any (same_key key) keys
            ≡ (not (list_any (same_key key) gone.now) && (not (list_any (same_key key) fresh.now) && gives_rise self.now (payload_in index.now feed key)))) }
        ensures ordered { IfOk result (λ keys. IsStrictlySortedBy key_cmp keys) }
    {
        let mut keys = raised_keys(alloc, &self.stamps, index, feed, fresh)?;
        take_out(&mut keys, gone);
        let found = keys_in_order(alloc, keys)?;
        Ok(found)
    }
}

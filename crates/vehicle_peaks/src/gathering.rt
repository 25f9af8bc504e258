//! The timestamps of a feed's entities that raise peaks.
ghost use Rattle.std.specs.Prelude.{◌≡◌, ℕ, List, Some, None, IfOk, OnOk, bytes_eq, if◌then◌else◌};
ghost use Rattle.std.specs.BTreeMap.{get_by_text};
ghost use Rattle.feed_values.specs.Views.{entity_value};
ghost use Rattle.rule_table.specs.Peaks.{greater, greatest, stamps_of};
ghost use Rattle.history_rules.specs.HeldPeaks.{peak_of, is_below, ids_seen};
ghost use Rattle.entity_index.specs.Held.{entities_before, held_at};
ghost use Rattle.vehicle_peaks.specs.Rises.{AreRises, rise};

use crate::stamped::{stamp, vehicle_id};
use entity_index::EntityIndex;
use feed_values::Entity;
use history_rules::Peaks;
use rule_table::PeakView;
use std::alloc::{AllocError, Global};
use std::collections::BTreeMap;

/// Puts a timestamp of a vehicle in the place of a lesser one, or where there is none.
fn put_stamp(
    alloc: Global,
    stamps: &mut BTreeMap<String, u64>,
    vehicle: &str,
    stamp: u64,
) -> Result<(), AllocError>
    ensures { OnOk result ((v : List ℕ) → get_by_text stamps.new v ≡ (if bytes_eq vehicle.now v then greater (Some stamp) (get_by_text stamps.old v) else get_by_text stamps.old v)) }
{
    match stamps.get_mut(vehicle) {
        Some(held) => {
            if *held < stamp {
                *held = stamp;
            }
            Ok(())
        }
        None => {
            let id = String::from_str(alloc, vehicle)?;
            stamps.insert(id, stamp)?;
            Ok(())
        }
    }
}

fn is_below(peak: Option<u64>, stamp: u64) -> bool
    ensures { result ≡ is_below peak stamp }
{
    match peak {
        None => true,
        Some(peak) => peak < stamp,
    }
}

/// Puts in the timestamp of a vehicle where it raises the peak.
fn put_rise(
    alloc: Global,
    stamps: &mut BTreeMap<String, u64>,
    peak: Option<u64>,
    vehicle: &str,
    stamp: u64,
) -> Result<(), AllocError>
    ensures { OnOk result ((v : List ℕ) → get_by_text stamps.new v ≡ (if bytes_eq vehicle.now v then greater (rise peak (Some stamp)) (get_by_text stamps.old v) else get_by_text stamps.old v)) }
{
    if !is_below(peak, stamp) {
        return Ok(());
    }
    put_stamp(alloc, stamps, vehicle, stamp)
}

/// Puts in the timestamp of an entity where it raises the peak of its vehicle.
fn put_entity(
    alloc: Global,
    stamps: &mut BTreeMap<String, u64>,
    peaks: &Peaks,
    feed: u8,
    entity: &Entity,
) -> Result<(), AllocError>
    ensures { OnOk result ((v : List ℕ) → get_by_text stamps.new v ≡ greater (rise (peak_of peaks.now feed v) (greatest (stamps_of v (entity_value entity.now)))) (get_by_text stamps.old v)) }
{
    let Some(vehicle) = vehicle_id(entity) else {
        return Ok(());
    };
    let Some(stamp) = stamp(entity) else {
        return Ok(());
    };
    let peak = peaks.peak(feed, vehicle.as_str());
    put_rise(alloc, stamps, peak, vehicle.as_str(), stamp)
}

/// The timestamps that raise peaks, of each vehicle the greatest.
pub(crate) fn rising_stamps(
    alloc: Global,
    peaks: &Peaks,
    index: &EntityIndex,
    feed: u8,
) -> Result<BTreeMap<String, u64>, AllocError>
    ensures { IfOk result (λ stamps. AreRises (entities_before feed (held_at index.now feed).bytes) (peak_of peaks.now feed) (ids_seen stamps)) }
{
    let mut stamps = BTreeMap::new(alloc);
    for (_, entity) in index.entities(feed) {
        put_entity(alloc, &mut stamps, peaks, feed, entity)?;
    }
    Ok(stamps)
}

//! The peaks of all feeds.
ghost use Rattle.std.specs.Prelude.{◌≡◌, ◌<◌, List, ℕ, None, Some, length, IfOk, OnOk, OnErr, bytes_eq, if◌then◌else◌};
ghost use Rattle.std.specs.BTreeMap.{get_by_text};
ghost use Rattle.rule_table.specs.Peaks.{greater};
ghost use Rattle.history_rules.specs.HeldPeaks.{peak_of, raised, is_below, seen};

use rule_table::PeakView;
use std::alloc::{AllocError, Global};
use std::collections::BTreeMap;
use std::marker::Model;

/// The greatest timestamp of each vehicle of each feed, in POSIX seconds.
#[derive(Drop)]
pub struct Peaks {
    alloc: Global,
    feeds: Vec<BTreeMap<String, u64>>,
}

impl Model for Peaks {
    ghost use Rattle.history_rules.specs.HeldPeaks.{HeldPeaks, seen};

    ghost Value = { HeldPeaks };

    ghost view = { λ p. seen p.feeds.items };
}

impl Peaks {
    /// Peaks of no vehicle. It takes no memory.
    pub fn new(alloc: Global) -> Peaks
        ensures { (f : ℕ) (v : List ℕ) → peak_of result f v ≡ None }
    {
        Peaks {
            alloc,
            feeds: Vec::new(alloc),
        }
    }

    /// Raises the peak of a vehicle of a feed to a timestamp. After want of memory the peaks are gone.
    ///
    /// A timestamp that isn't greater changes nothing and takes no memory.
    pub fn raise(self, feed: u8, vehicle: &str, stamp: u64) -> Result<Peaks, AllocError>
        ensures { IfOk result (λ peaks. (f : ℕ) (v : List ℕ) → peak_of peaks f v ≡ raised (peak_of self) feed vehicle.now stamp f v) }
    {
        let mut peaks = self;
        peaks.raise_in(feed, vehicle, stamp)?;
        Ok(peaks)
    }

    /// Raises the peak of a vehicle of a feed to a timestamp, and says whether that changed it.
    ///
    /// A timestamp that isn't greater changes nothing and takes no memory.
    pub fn raise_in(&mut self, feed: u8, vehicle: &str, stamp: u64) -> Result<bool, AllocError>
        ensures raised { OnOk result ((f : ℕ) (v : List ℕ) → peak_of self.new f v ≡ raised (peak_of self.old) feed vehicle.now stamp f v) }
        ensures changed { IfOk result (λ b. b ≡ is_below (peak_of self.old feed vehicle.now) stamp) }
        ensures err { OnErr result ((f : ℕ) (v : List ℕ) → peak_of self.new f v ≡ peak_of self.old f v) }
    {
        raise_feed(self.alloc, &mut self.feeds, feed, vehicle, stamp)
    }
}

impl PeakView for Peaks {
    ghost peaks = { λ s. peak_of s };

    fn peak(&self, feed: u8, vehicle: &str) -> Option<u64> {
        match self.feeds.get(feed as usize) {
            None => None,
            Some(peaks) => peaks.get(vehicle).copied(),
        }
    }
}

/// Makes a place for a feed.
fn make_place(
    alloc: Global,
    feeds: &mut Vec<BTreeMap<String, u64>>,
    feed: u8,
) -> Result<(), AllocError>
    ensures same { (f : ℕ) (v : List ℕ) → peak_of (seen feeds.new.items) f v ≡ peak_of (seen feeds.old.items) f v }
    ensures within { OnOk result (feed < length feeds.new.items) }
{
    while feeds.len() <= feed as usize {
        feeds.push(BTreeMap::new(alloc))?;
    }
    Ok(())
}

/// Raises the peak of a vehicle among those of its feed, and says whether that changed it.
fn raise_vehicle(
    alloc: Global,
    peaks: &mut BTreeMap<String, u64>,
    vehicle: &str,
    stamp: u64,
) -> Result<bool, AllocError>
    ensures raised { OnOk result ((v : List ℕ) → get_by_text peaks.new v ≡ (if bytes_eq vehicle.now v then greater (Some stamp) (get_by_text peaks.old v) else get_by_text peaks.old v)) }
    ensures changed { IfOk result (λ b. b ≡ is_below (get_by_text peaks.old vehicle.now) stamp) }
    ensures err { OnErr result ((v : List ℕ) → get_by_text peaks.new v ≡ get_by_text peaks.old v) }
{
    match peaks.get_mut(vehicle) {
        Some(peak) => {
            let is_raised = *peak < stamp;
            if is_raised {
                *peak = stamp;
            }
            Ok(is_raised)
        }
        None => {
            let id = String::from_str(alloc, vehicle)?;
            peaks.insert(id, stamp)?;
            Ok(true)
        }
    }
}

/// Raises the peak of a vehicle in the place of its feed, and says whether that changed it.
fn raise_feed(
    alloc: Global,
    feeds: &mut Vec<BTreeMap<String, u64>>,
    feed: u8,
    vehicle: &str,
    stamp: u64,
) -> Result<bool, AllocError>
    ensures raised { OnOk result ((f : ℕ) (v : List ℕ) → peak_of (seen feeds.new.items) f v ≡ raised (peak_of (seen feeds.old.items)) feed vehicle.now stamp f v) }
    ensures changed { IfOk result (λ b. b ≡ is_below (peak_of (seen feeds.old.items) feed vehicle.now) stamp) }
    ensures err { OnErr result ((f : ℕ) (v : List ℕ) → peak_of (seen feeds.new.items) f v ≡ peak_of (seen feeds.old.items) f v) }
{
    make_place(alloc, feeds, feed)?;
    raise_vehicle(alloc, &mut feeds[feed as usize], vehicle, stamp)
}

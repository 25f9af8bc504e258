//! Views of peaks.
ghost use Rattle.std.specs.Prelude.{◌≡◌};
ghost use Rattle.rule_table.specs.Peaks.{PeakMap};

/// What answers the ask on peaks, without memory.
pub trait PeakView {
    ghost peaks: { Self → PeakMap };

    /// The greatest timestamp of a vehicle of a feed in the snapshots before the feed's last one, in POSIX seconds.
    fn peak(&self, feed: u8, vehicle: &str) -> Option<u64>
        ensures { result ≡ peaks self.now feed vehicle.now };
}

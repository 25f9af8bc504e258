//! The stop times of one trip.

ghost use Rattle.std.specs.Prelude.{◌≡◌, IfOk, IfErr, Some, All, option_copied};
ghost use Rattle.std.specs.FinMap as map;
ghost use Rattle.schedule_tables.specs.Times.{AreRising, IsGapFor, StandsAt, keyed};

use crate::stop_time::StopTime;
use std::marker::Model;

/// The stop times of a trip, by rising sequence and found by binary search. Contracts see a finite map
/// from their sequences.
#[derive(Drop)]
pub struct TripTimes {
    times: Vec<StopTime>,
}

impl Model for TripTimes {
    ghost use Rattle.std.specs.Coded.{coded_ℕ};
    ghost use Rattle.std.specs.FinMap.{code, from_sorted};
    ghost use Rattle.schedule_tables.specs.Times.{AreRising, BySequence, keyed, stop_time_code};

    ghost Value = { BySequence };

    ghost coded = { code coded_ℕ stop_time_code };

    ghost view = { λ trip. from_sorted (keyed trip.times.items) };

    ghost invariant = { λ trip. AreRising trip.times.items };
}

impl TripTimes {
    /// The trip of these stop times, which stay where they are.
    pub(crate) fn new(times: Vec<StopTime>) -> TripTimes
        requires { AreRising times.items }
        ensures { result ≡ map.from_sorted (keyed times.items) }
    {
        TripTimes { times }
    }

    /// All stop times, by rising sequence.
    pub fn as_slice(&self) -> &[StopTime]
        ensures entries { keyed result.now ≡ map.entries self.now }
        ensures held { All (λ time. map.get self.now time.sequence ≡ Some time) result.now }
    {
        self.times.as_slice()
    }

    /// The stop time of a sequence.
    pub fn get(&self, sequence: u32) -> Option<&StopTime>
        ensures { option_copied result ≡ map.get self.now sequence }
    {
        match place_of_sequence(self.times.as_slice(), sequence) {
            Ok(at) => Some(&self.times[at]),
            Err(_) => None,
        }
    }
}

/// Where a sequence stands, or where it would go.
pub fn place_of_sequence(times: &[StopTime], sequence: u32) -> Result<usize, usize>
    requires { AreRising times.now }
    ensures found { IfOk result (StandsAt times.now sequence) }
    ensures absent { IfErr result (IsGapFor times.now sequence) }
{
    times.binary_search_by_key(&sequence, |time| time.sequence)
}

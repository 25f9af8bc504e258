//! Sums over snapshots.
ghost use Rattle.std.specs.Prelude.{◌≡◌, ◌+◌, [], IfOk};
ghost use Rattle.run_rows.specs.follow_engine.Deltas.{delta_value};
ghost use Rattle.run_trial.specs.Tried.{added, sums_over};

use run_rows::Delta;
use std::alloc::AllocError;

/// Sums over the snapshots that were taken: how many they are, what they opened and closed, and how many entities were judged
/// anew, by the four counts of a snapshot.
#[derive(Clone, Copy, Debug)]
pub struct Sums {
    pub snapshots: u64,
    pub opened: u64,
    pub closed: u64,
    pub tested: u64,
    pub paired: u64,
    pub bounded: u64,
    pub peaked: u64,
}

impl Sums {
    /// Those over no snapshots.
    pub fn none() -> Sums
        ensures { result ≡ sums_over [] }
    {
        Sums {
            snapshots: 0,
            opened: 0,
            closed: 0,
            tested: 0,
            paired: 0,
            bounded: 0,
            peaked: 0,
        }
    }

    /// The sums with what a snapshot more changed. Where one passes 2^64 - 1, that is answered as want of memory.
    pub fn with(self, delta: &Delta) -> Result<Sums, AllocError>
        ensures { IfOk result (λ sums. sums ≡ added self (delta_value delta.now)) }
    {
        Ok(Sums {
            snapshots: sum(self.snapshots, 1)?,
            opened: sum(self.opened, delta.opened.as_slice().len() as u64)?,
            closed: sum(self.closed, delta.closed.as_slice().len() as u64)?,
            tested: sum(self.tested, delta.tested)?,
            paired: sum(self.paired, delta.paired)?,
            bounded: sum(self.bounded, delta.bounded)?,
            peaked: sum(self.peaked, delta.peaked)?,
        })
    }
}

/// The sum of two numbers. One past 2^64 - 1 is answered as want of memory.
pub fn sum(a: u64, b: u64) -> Result<u64, AllocError>
    ensures { IfOk result (λ n. n ≡ a + b) }
{
    match a.checked_add(b) {
        None => Err(AllocError),
        Some(n) => Ok(n),
    }
}

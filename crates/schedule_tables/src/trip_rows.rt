//! The stop times of one trip while they are read.

ghost use Rattle.std.specs.Prelude.{◌≡◌, ◌++◌, ◌∷◌, [], IfOk, OnErr, OnOk};
ghost use Rattle.schedule_tables.specs.Times.{AreKeyed, AreRising, by_sequence, keyed};

use crate::grouped::Group;
use crate::late_times::LateTimes;
use crate::stop_time::StopTime;
use crate::trip_times::{TripTimes, place_of_sequence};
use std::alloc::{AllocError, Global};
use std::collections::BTreeMap;
use std::marker::Model;

/// The stop times of a trip in any order. Contracts see a finite map from their sequences.
///
/// A row whose sequence is above those in `rising` goes to its end, and any other to `late`, so that no
/// order of the rows makes adding one slow.
#[derive(Drop)]
pub(crate) struct TripRows {
    rising: Vec<StopTime>,
    late: LateTimes,
}

impl Model for TripRows {
    ghost use Rattle.std.specs.Prelude.{◌++◌};
    ghost use Rattle.std.specs.Coded.{coded_ℕ};
    ghost use Rattle.std.specs.FinMap.{code};
    ghost use Rattle.schedule_tables.specs.Times.{AreKeyed, AreRising, BySequence, by_sequence, keyed, stop_time_code};

    ghost Value = { BySequence };

    ghost coded = { code coded_ℕ stop_time_code };

    ghost view = { λ trip. by_sequence (keyed trip.rising.items ++ trip.late) };

    ghost invariant = { λ trip. AreRising trip.rising.items × AreKeyed trip.late };
}

impl TripRows {
    /// The same stop times by rising sequence. Those that came in order stay where they are.
    pub fn settled(self, alloc: Global) -> Result<TripTimes, AllocError>
        ensures { IfOk result (λ trip. trip ≡ self) }
    {
        let TripRows { rising, late } = self;
        match late.into_map() {
            Some(late) => {
                let all = with_all(late, rising)?;
                Ok(TripTimes::new(in_order(alloc, all)?))
            }
            None => Ok(TripTimes::new(rising)),
        }
    }
}

impl Group for TripRows {
    ghost use Rattle.schedule_tables.specs.Times.{sequences};

    type Item = StopTime;

    ghost grouping = { sequences };

    fn first(alloc: Global, item: StopTime) -> Result<TripRows, AllocError> {
        let mut rising = Vec::new(alloc);
        rising.push(item)?;
        Ok(TripRows {
            rising,
            late: LateTimes::new(),
        })
    }

    fn put(&mut self, item: StopTime) -> Result<bool, AllocError> {
        if self.late.contains(item.sequence) {
            return Ok(false);
        }
        let at = match place_of_sequence(self.rising.as_slice(), item.sequence) {
            Ok(_) => return Ok(false),
            Err(at) => at,
        };
        if at == self.rising.len() {
            push(&mut self.rising, item)?;
            return Ok(true);
        }
        let alloc = *self.rising.allocator();
        self.late.put(alloc, item)?;
        Ok(true)
    }
}

/// Adds a stop time at the end.
///
/// A full list grows by an eighth, and at least by four, so that little room of many short lists is unused.
fn push(times: &mut Vec<StopTime>, time: StopTime) -> Result<(), AllocError>
    ensures ok { OnOk result (times.new.items ≡ times.old.items ++ time ∷ []) }
    ensures err { OnErr result (times.new.items ≡ times.old.items) }
{
    if times.len() == times.capacity() {
        times.reserve_exact((times.len() / 8).max(4))?;
    }
    times.push(time)?;
    Ok(())
}

/// The map with these stop times too.
fn with_all(
    mut late: BTreeMap<u32, StopTime>,
    rising: Vec<StopTime>,
) -> Result<BTreeMap<u32, StopTime>, AllocError>
    requires keyed { AreKeyed late.entries }
    requires rising { AreRising rising.items }
    ensures keyed { IfOk result (λ all. AreKeyed all.entries) }
    ensures entries { IfOk result (λ all. by_sequence all.entries ≡ by_sequence (keyed rising.items ++ late.entries)) }
{
    for time in rising {
        late.insert(time.sequence, time)?;
    }
    Ok(late)
}

/// The stop times of a map by rising sequence.
fn in_order(alloc: Global, all: BTreeMap<u32, StopTime>) -> Result<Vec<StopTime>, AllocError>
    requires { AreKeyed all.entries }
    ensures rising { IfOk result (λ times. AreRising times.items) }
    ensures entries { IfOk result (λ times. keyed times.items ≡ all.entries) }
{
    let mut times = Vec::new(alloc);
    for (_, time) in all {
        times.push(time)?;
    }
    Ok(times)
}

//! Stop times of a trip that stand behind greater ones.

ghost use Rattle.std.specs.Prelude.{◌≡◌, [], OnErr, OnOk, is_some};
ghost use Rattle.std.specs.BTreeMap.{insert_entry};
ghost use Rattle.std.specs.FinMap.{find};
ghost use Rattle.std.specs.Ordering.{nat_cmp};
ghost use Rattle.schedule_tables.specs.Times.{entries_in};

use crate::stop_time::StopTime;
use std::alloc::{AllocError, Global};
use std::collections::BTreeMap;
use std::marker::Model;

/// Stop times whose rows stand behind rows of greater sequences. Contracts see them beside their
/// sequences, which rise.
///
/// Few trips have any, so the map is made with the first.
#[derive(Drop)]
pub(crate) struct LateTimes {
    times: Option<Box<BTreeMap<u32, StopTime>>>,
}

impl Model for LateTimes {
    ghost use Rattle.std.specs.Prelude.{[], List, ℕ, option_map, unwrap_or};
    ghost use Rattle.schedule_tables.specs.declared.stop_time.StopTime.{StopTime};

    ghost Value = { List (ℕ × StopTime) };

    ghost view = { λ late. unwrap_or (option_map (λ boxed. boxed.value.entries) late.times) [] };
}

impl LateTimes {
    pub fn new() -> LateTimes
        ensures { result ≡ [] }
    {
        LateTimes { times: None }
    }

    /// Whether one has the sequence.
    pub fn contains(&self, sequence: u32) -> bool
        ensures { result ≡ is_some (find nat_cmp sequence self.now) }
    {
        match &self.times {
            Some(times) => times.contains_key(&sequence),
            None => false,
        }
    }

    /// Adds a stop time.
    pub fn put(&mut self, alloc: Global, time: StopTime) -> Result<(), AllocError>
        ensures ok { OnOk result (self.new ≡ insert_entry nat_cmp self.old time.sequence time) }
        ensures err { OnErr result (self.new ≡ self.old) }
    {
        if let Some(times) = &mut self.times {
            times.insert(time.sequence, time)?;
            return Ok(());
        }
        let mut times = BTreeMap::new(alloc);
        times.insert(time.sequence, time)?;
        self.times = Some(Box::new(alloc, times)?);
        Ok(())
    }

    /// The map of them, None where there are none.
    pub fn into_map(self) -> Option<BTreeMap<u32, StopTime>>
        ensures { entries_in result ≡ self }
    {
        match self.times {
            Some(times) => Some(Box::into_inner(times)),
            None => None,
        }
    }
}

//! What calendar_dates.txt says of a service.

ghost use Rattle.std.specs.Prelude.{◌≡◌, OnOk};
ghost use Rattle.std.specs.FinMap as map;

use crate::grouped::Group;
use indexmap::IndexMap;
use rt_day::Day;
use schedule_rows::Exception;
use std::alloc::{AllocError, Global};
use std::marker::Model;

/// The exceptions of a service: for each day whether it is added. Contracts see a finite map from the
/// numbers of the days.
#[derive(Drop)]
pub struct Exceptions {
    days: IndexMap<Day, bool>,
}

impl Model for Exceptions {
    ghost use Rattle.std.specs.Coded.{coded_bool, coded_ℤ};
    ghost use Rattle.std.specs.FinMap.{code};
    ghost use Rattle.schedule_tables.specs.Groups.{ByDay, days_of};

    ghost Value = { ByDay };

    ghost coded = { code coded_ℤ coded_bool };

    ghost view = { λ exceptions. days_of exceptions.days.entries };
}

impl Exceptions {
    /// Whether the day is added or removed; None where it is no exception.
    pub fn get(&self, day: Day) -> Option<bool>
        ensures { result ≡ map.get self.now day.number }
    {
        self.days.get(&day).copied()
    }

    fn write(&mut self, day: Day, added: bool) -> Result<(), AllocError>
        ensures { OnOk result (self.new ≡ map.insert self.old day.number added) }
    {
        self.days.insert(day, added)?;
        Ok(())
    }
}

impl Group for Exceptions {
    ghost use Rattle.schedule_tables.specs.Groups.{exceptions};

    type Item = Exception;

    ghost grouping = { exceptions };

    fn first(alloc: Global, item: Exception) -> Result<Exceptions, AllocError> {
        let mut days = IndexMap::new(alloc);
        days.insert(item.day, item.added)?;
        Ok(Exceptions { days })
    }

    fn put(&mut self, item: Exception) -> Result<bool, AllocError> {
        if self.get(item.day).is_some() {
            return Ok(false);
        }
        self.write(item.day, item.added)?;
        Ok(true)
    }
}

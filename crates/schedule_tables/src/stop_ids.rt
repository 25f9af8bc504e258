//! Ids by number.

ghost use Rattle.std.specs.Prelude.{◌≡◌, ◌<◌, [], IfOk, OnOk, Some, length, slice_get};
ghost use Rattle.schedule_tables.specs.Stops.{ids_with, number_in};

use indexmap::IndexSet;
use schedule_rows::Id;
use std::alloc::{AllocError, Global};
use std::marker::Model;

/// Ids that are held once each and have numbers from 0. Contracts see them as a list.
#[derive(Drop)]
pub struct StopIds {
    ids: IndexSet<String>,
}

impl Model for StopIds {
    ghost use Rattle.std.specs.Prelude.{List, map, string_bytes};
    ghost use Rattle.schedule_tables.specs.Maps.{Text};

    ghost Value = { List Text };

    ghost view = { λ stops. map (λ id. string_bytes id) stops.ids.keys };
}

impl StopIds {
    pub fn new(alloc: Global) -> StopIds
        ensures { result ≡ [] }
    {
        StopIds {
            ids: IndexSet::new(alloc),
        }
    }

    /// The number of an id, which is put at the end if it is new.
    ///
    /// A number past 32 bits is answered as want of memory. No file within its limit has so many ids.
    pub fn number(&mut self, id: Id) -> Result<u32, AllocError>
        ensures ids { OnOk result (self.new ≡ ids_with self.old id) }
        ensures number { IfOk result (λ n. n ≡ number_in self.old id) }
        ensures within { IfOk result (λ n. n < length self.new) }
    {
        let (number, _) = self.ids.insert_full(id.into_string())?;
        if number > u32::MAX as usize {
            return Err(AllocError);
        }
        Ok(number as u32)
    }

    /// How many ids there are.
    pub fn len(&self) -> usize
        ensures { result ≡ length self.now }
    {
        self.ids.len()
    }

    /// The id of a number.
    pub fn get(&self, number: usize) -> &str
        requires { number < length self.now }
        ensures { slice_get self.now number ≡ Some result.now }
    {
        self.ids.get_index(number).unwrap().as_str()
    }
}

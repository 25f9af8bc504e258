//! What stands at an entity, in four lists.
ghost use Rattle.std.specs.Prelude.{◌≡◌, ◌<◌};
ghost use Rattle.entity_index.specs.Lists.{no_lists, list_of, with_list};

use feed_values::Items;
use standing_walks::Standing;
use std::alloc::Global;
use std::marker::Model;

/// What stands at an entity, in four lists by number: 0 of the rules on the entity by itself and with the timetable, 1 of those with pairing
/// rows, 2 of those by bounds, and 3 of those by peaks. Contracts see them as the four lists.
#[derive(Drop)]
pub struct Parts {
    local: Items<Standing>,
    paired: Items<Standing>,
    bounded: Items<Standing>,
    peaked: Items<Standing>,
}

impl Model for Parts {
    ghost use Rattle.entity_index.specs.Lists.{Lists};

    ghost Value = { Lists };

    ghost view = { λ p. record { local = p.local; paired = p.paired; bounded = p.bounded; peaked = p.peaked } };
}

impl Parts {
    /// Four empty lists. It takes no memory.
    pub fn new(alloc: Global) -> Parts
        ensures { result ≡ no_lists }
    {
        Parts {
            local: Items::new(alloc),
            paired: Items::new(alloc),
            bounded: Items::new(alloc),
            peaked: Items::new(alloc),
        }
    }

    /// The list of this number.
    pub fn get(&self, part: u8) -> &Items<Standing>
        requires { part < 4 }
        ensures { result.now ≡ list_of self.now part }
    {
        match part {
            0 => &self.local,
            1 => &self.paired,
            2 => &self.bounded,
            _ => &self.peaked,
        }
    }

    /// Puts a list in the place of the one of this number; the others stay.
    pub fn set(&mut self, part: u8, list: Items<Standing>)
        requires { part < 4 }
        ensures { self.new ≡ with_list self.old part list }
    {
        match part {
            0 => self.local = list,
            1 => self.paired = list,
            2 => self.bounded = list,
            _ => self.peaked = list,
        }
    }
}

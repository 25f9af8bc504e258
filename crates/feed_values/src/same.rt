//! Whether two slots or two paths are one. The derived `==` of so many variants has no clause that tells it.
ghost use Rattle.std.specs.Prelude.{◌≡◌, ◌↔◌, IsTrue};

use crate::{Path, Slot};

impl Slot {
    /// Whether it is the other slot.
    pub fn is_slot(self, other: Slot) -> bool
        ensures { IsTrue result ↔ (self ≡ other) }
    {
        self == other
    }
}

impl Path {
    /// Whether it is the other path: its slot and its index are.
    pub fn is_path(self, other: Path) -> bool
        ensures { IsTrue result ↔ (self ≡ other) }
    {
        self.slot.is_slot(other.slot) && self.index == other.index
    }
}

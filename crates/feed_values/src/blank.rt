//! Messages that hold nothing.
ghost use Rattle.std.specs.Prelude.{◌≡◌, ◌↔◌, IsTrue};

use std::alloc::Global;

/// A kind of message that has a value which holds nothing: no slot and no unknown field.
pub trait Blank: Drop {
    ghost blank: { Self };

    /// A message that holds nothing. It takes no memory.
    fn blank(alloc: Global) -> Self
        ensures { result ≡ blank };

    /// Whether a message holds nothing.
    fn is_blank(&self) -> bool
        ensures { IsTrue result ↔ (self.now ≡ blank) };
}

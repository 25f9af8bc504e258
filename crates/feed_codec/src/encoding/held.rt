//! What a slot holds, written, where it is a text.
ghost use Rattle.std.specs.Prelude.{◌≡◌, ◌≤◌, ◌<◌, ◌^◌, ◌++◌, List, ℕ, OnOk};
ghost use Rattle.rt_wire.specs.Fields.{Len};
ghost use Rattle.feed_values.specs.Canonical.{spelled_slot, where_held};

use feed_values::Text;
use rt_wire::{RawValue, put_field};
use std::alloc::{AllocError, Global};

/// What a slot of a message holds.
pub trait Held {
    /// What is owed of the messages in it.
    ghost Fits: { Self → Type 0 } = { λ _. Unit {0} };

    /// The bytes of the slot of a number.
    ghost spelled: { ℕ → Self → List ℕ };

    /// Appends the slot of a number.
    fn put_in(&self, alloc: Global, out: &mut Vec<u8>, number: u32) -> Result<(), AllocError>
        requires some { 1 ≤ number }
        requires small { number < 2 ^ 29 }
        requires fits { Fits self.now }
        ensures { OnOk result (out.new.items ≡ out.old.items ++ spelled number self.now) };
}

impl Held for Text {
    ghost spelled = { λ n t. spelled_slot n (Len t) };

    fn put_in(&self, _alloc: Global, out: &mut Vec<u8>, number: u32) -> Result<(), AllocError> {
        put_field(out, number, RawValue::Len(self.as_str().as_bytes()))
    }
}

impl Held for Option<Text> {
    ghost spelled = { λ n o. where_held (λ t. spelled_slot n (Len t)) o };

    fn put_in(&self, alloc: Global, out: &mut Vec<u8>, number: u32) -> Result<(), AllocError> {
        match self {
            Some(text) => text.put_in(alloc, out, number),
            None => Ok(()),
        }
    }
}

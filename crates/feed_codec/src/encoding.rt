//! Encoding of any message, slot by slot.
//!
//! A nested message is written into a buffer of its own and then copied behind its length, so a byte is copied once for
//! each message around it and no size is computed twice.
ghost use Rattle.std.specs.Prelude.{◌≡◌, ◌++◌, map, OnOk};
ghost use Rattle.std.specs.List.{flat_map, AllByRecursion};
ghost use Rattle.rt_wire.specs.Writing.{spell};
ghost use Rattle.feed_values.specs.Schema.{Schema};
ghost use Rattle.feed_values.specs.Views.{unknown_field};
ghost use Rattle.feed_values.specs.WellFormed.{IsWellFormed, IsUnknown};
ghost use Rattle.feed_values.specs.Canonical.{canonical};

mod alert;
mod descriptors;
mod feed;
mod held;
mod payload;
mod properties;
mod scalars;
mod translation;
mod trip_update;
mod vehicle_position;

use crate::message::Message;
use feed_values::{Items, Unknown};
pub use held::Held;
use rt_wire::put_field;
use std::alloc::{AllocError, Global};

/// A kind of message that can be written.
pub trait Encode: Message {
    /// Appends the canonical bytes of the message.
    fn put(&self, alloc: Global, out: &mut Vec<u8>) -> Result<(), AllocError>
        requires { IsWellFormed Self.schema (Self.value self.now) }
        ensures { OnOk result (out.new.items ≡ out.old.items ++ canonical Self.schema (Self.value self.now)) };
}

/// Appends the unknown fields of a message of kind `M`.
pub fn put_unknown<M: Message>(out: &mut Vec<u8>, held: &Items<Unknown>) -> Result<(), AllocError>
    requires { AllByRecursion (IsUnknown M.schema) (map unknown_field held.now) }
    ensures { OnOk result (out.new.items ≡ out.old.items ++ flat_map spell (map unknown_field held.now)) }
{
    for unknown in held.as_slice() {
        put_field(out, unknown.number, unknown.value.wire_value())?;
    }
    Ok(())
}

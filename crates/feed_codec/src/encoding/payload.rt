//! Messages in slots, written.
ghost use Rattle.std.specs.Prelude.{◌≡◌, ◌++◌, ◌≤◌, ◌<◌, ◌^◌, map, OnOk, IfSome};
ghost use Rattle.std.specs.Option.{option_map};
ghost use Rattle.std.specs.List.{flat_map, AllByRecursion};
ghost use Rattle.rt_wire.specs.Fields.{Len};
ghost use Rattle.feed_values.specs.Schema.{Schema, Value};
ghost use Rattle.feed_values.specs.WellFormed.{IsWellFormed};
ghost use Rattle.feed_values.specs.Canonical.{canonical, spelled_slot, where_held};

use crate::encoding::Encode;
use crate::encoding::held::Held;
use feed_values::{Apart, Blank, Boxed, Items};
use rt_wire::{RawValue, put_field};
use std::alloc::{AllocError, Global};

// How many bytes a message in another is given at first: what most of them take.
const ROOM: usize = 64;

/// A message, one that stands apart or one in a box.
pub trait Payload {
    ghost schema: { Schema };

    ghost value: { Self → Value schema };

    /// Appends the canonical bytes of the message.
    fn put_payload(&self, alloc: Global, out: &mut Vec<u8>) -> Result<(), AllocError>
        requires { IsWellFormed schema (value self.now) }
        ensures { OnOk result (out.new.items ≡ out.old.items ++ canonical schema (value self.now)) };
}

impl<M: Encode> Payload for M {
    ghost schema = { M.schema };

    ghost value = { M.value };

    fn put_payload(&self, alloc: Global, out: &mut Vec<u8>) -> Result<(), AllocError> {
        self.put(alloc, out)
    }
}

impl<M: Encode> Payload for Apart<M> {
    ghost schema = { M.schema };

    ghost value = { M.value };

    fn put_payload(&self, alloc: Global, out: &mut Vec<u8>) -> Result<(), AllocError> {
        self.put(alloc, out)
    }
}

impl<M: Encode + Blank> Payload for Boxed<M> {
    ghost schema = { M.schema };

    ghost value = { M.value };

    fn put_payload(&self, alloc: Global, out: &mut Vec<u8>) -> Result<(), AllocError> {
        match self.get() {
            Some(message) => message.put(alloc, out),
            None => M::blank(alloc).put(alloc, out),
        }
    }
}

impl<P: Payload> Held for P {
    ghost Fits = { λ p. IsWellFormed P.schema (P.value p) };

    ghost spelled = { λ n p. spelled_slot n (Len (canonical P.schema (P.value p))) };

    fn put_in(&self, alloc: Global, out: &mut Vec<u8>, number: u32) -> Result<(), AllocError> {
        let mut inner = Vec::with_capacity(alloc, ROOM)?;
        self.put_payload(alloc, &mut inner)?;
        put_field(out, number, RawValue::Len(inner.as_slice()))
    }
}

impl<P: Payload> Held for Option<P> {
    ghost Fits = { λ o. IfSome (option_map P.value o) (IsWellFormed P.schema) };

    ghost spelled = { λ n o. where_held (λ w. spelled_slot n (Len (canonical P.schema w))) (option_map P.value o) };

    fn put_in(&self, alloc: Global, out: &mut Vec<u8>, number: u32) -> Result<(), AllocError> {
        match self {
            Some(message) => message.put_in(alloc, out, number),
            None => Ok(()),
        }
    }
}

impl<P: Payload> Held for Items<P> {
    ghost Fits = { λ l. AllByRecursion (IsWellFormed P.schema) (map P.value l) };

    ghost spelled = { λ n l. flat_map (λ w. spelled_slot n (Len (canonical P.schema w))) (map P.value l) };

    fn put_in(&self, alloc: Global, out: &mut Vec<u8>, number: u32) -> Result<(), AllocError> {
        for message in self.as_slice() {
            message.put_in(alloc, out, number)?;
        }
        Ok(())
    }
}

//! Numbers and truth values, written. Which numbers an enum recognises makes no difference to how one is written.
ghost use Rattle.std.specs.Prelude.{◌≡◌, ◌≤◌, ◌<◌, ◌^◌, ◌++◌, OnOk};
ghost use Rattle.feed_values.specs.Schema as schema;
ghost use Rattle.feed_values.specs.Views.{natural, truth};
ghost use Rattle.feed_values.specs.Canonical.{spelled_slot, where_held, scalar_value};

use crate::encoding::held::Held;
use rt_wire::{RawValue, put_field};
use std::alloc::{AllocError, Global};

impl Held for Option<u64> {
    ghost spelled = { λ n o. where_held (λ z. spelled_slot n (scalar_value schema.U64 z)) (natural o) };

    fn put_in(&self, _alloc: Global, out: &mut Vec<u8>, number: u32) -> Result<(), AllocError> {
        match *self {
            Some(n) => put_field(out, number, RawValue::Varint(n)),
            None => Ok(()),
        }
    }
}

impl Held for Option<u32> {
    ghost spelled = { λ n o. where_held (λ z. spelled_slot n (scalar_value schema.U32 z)) (natural o) };

    fn put_in(&self, alloc: Global, out: &mut Vec<u8>, number: u32) -> Result<(), AllocError> {
        self.map(u64::from).put_in(alloc, out, number)
    }
}

impl Held for Option<bool> {
    ghost spelled = { λ n o. where_held (λ z. spelled_slot n (scalar_value schema.Bool z)) (truth o) };

    fn put_in(&self, alloc: Global, out: &mut Vec<u8>, number: u32) -> Result<(), AllocError> {
        self.map(u64::from).put_in(alloc, out, number)
    }
}

impl Held for Option<i64> {
    ghost spelled = { λ n o. where_held (λ z. spelled_slot n (scalar_value schema.I64 z)) o };

    fn put_in(&self, alloc: Global, out: &mut Vec<u8>, number: u32) -> Result<(), AllocError> {
        self.map(i64::cast_unsigned).put_in(alloc, out, number)
    }
}

impl Held for Option<i32> {
    ghost spelled = { λ n o. where_held (λ z. spelled_slot n (scalar_value schema.I32 z)) o };

    fn put_in(&self, alloc: Global, out: &mut Vec<u8>, number: u32) -> Result<(), AllocError> {
        self.map(i64::from).put_in(alloc, out, number)
    }
}

/// The bits of a float of four bytes.
#[derive(Clone, Copy)]
pub struct Bits32(pub Option<u32>);

impl Held for Bits32 {
    ghost spelled = { λ n b. where_held (λ z. spelled_slot n (scalar_value schema.Bits32 z)) (natural b.0) };

    fn put_in(&self, _alloc: Global, out: &mut Vec<u8>, number: u32) -> Result<(), AllocError> {
        match self.0 {
            Some(n) => put_field(out, number, RawValue::Fixed32(n)),
            None => Ok(()),
        }
    }
}

/// The bits of a float of eight bytes.
#[derive(Clone, Copy)]
pub struct Bits64(pub Option<u64>);

impl Held for Bits64 {
    ghost spelled = { λ n b. where_held (λ z. spelled_slot n (scalar_value schema.Bits64 z)) (natural b.0) };

    fn put_in(&self, _alloc: Global, out: &mut Vec<u8>, number: u32) -> Result<(), AllocError> {
        match self.0 {
            Some(n) => put_field(out, number, RawValue::Fixed64(n)),
            None => Ok(()),
        }
    }
}

//! Numbers, texts and truth values from JSON, and what may or has to stand at a key.
//!
//! Each function has two clauses: `read`, what it answers of a tree, and `fits`, that the form of a message can hold it.
ghost use Rattle.std.specs.Prelude.{◌≡◌, ◌≤◌, ◌≤ℤ◌, pos, [], IfOk, IfSome};
ghost use Rattle.std.specs.Str.{IsUtf8};
ghost use Rattle.serde_json.specs.View.{view};
ghost use Rattle.serde_json.specs.Find.{as_bool, get};
ghost use Rattle.feed_values.specs.Schema as schema;
ghost use Rattle.feed_values.specs.Views.{natural, truth};
ghost use Rattle.feed_json.specs.Holds.{InJson};
ghost use Rattle.feed_json.specs.Reads.{Reads};
ghost use Rattle.feed_values.specs.WellFormed.{InRange};
ghost use Rattle.feed_json.specs.Unform.{natural_of, natural_or_of, signed_of, scalar_of, text_of, of_kind, needed_at, optional_at};

use crate::json_fault::JsonFault;
use crate::paths::{out_of_range, text_of, under, wrong_kind};
use feed_values::Text;
use serde_json::Value;
use std::alloc::Global;

/// A whole number from `low` to `high`. Any other whole number is out of range, a negative one too.
pub fn natural_from(alloc: Global, value: &Value, low: u64, high: u64) -> Result<u64, JsonFault>
    ensures read { result ≡ natural_of low high (view value.now) }
    ensures above { IfOk result (λ n. low ≤ n) }
    ensures below { IfOk result (λ n. n ≤ high) }
{
    match value.as_u64() {
        Some(number) => {
            if low <= number && number <= high {
                Ok(number)
            } else {
                Err(out_of_range(alloc))
            }
        }
        None => {
            if value.as_i64().is_some() {
                Err(out_of_range(alloc))
            } else {
                Err(wrong_kind(alloc))
            }
        }
    }
}

/// A whole number from `low` to `high`, which may be negative. Any other is out of range, one above 2^63 too.
pub fn signed_from(alloc: Global, value: &Value, low: i64, high: i64) -> Result<i64, JsonFault>
    ensures read { result ≡ signed_of low high (view value.now) }
    ensures above { IfOk result (λ z. low ≤ℤ z) }
    ensures below { IfOk result (λ z. z ≤ℤ high) }
{
    match value.as_i64() {
        Some(number) => {
            if low <= number && number <= high {
                Ok(number)
            } else {
                Err(out_of_range(alloc))
            }
        }
        None => {
            if value.as_u64().is_some() {
                Err(out_of_range(alloc))
            } else {
                Err(wrong_kind(alloc))
            }
        }
    }
}

fn bool_from(alloc: Global, value: &Value) -> Result<bool, JsonFault>
    ensures { result ≡ of_kind (as_bool (view value.now)) }
{
    match value.as_bool() {
        Some(truth) => Ok(truth),
        None => Err(wrong_kind(alloc)),
    }
}

fn text_from(alloc: Global, value: &Value) -> Result<Text, JsonFault>
    ensures read { Reads (λ text. text) (text_of (view value.now)) result }
    ensures fits { IfOk result IsUtf8 }
{
    match value.as_str() {
        Some(text) => Ok(text_of(alloc, text)?),
        None => Err(wrong_kind(alloc)),
    }
}

pub fn needed_text(alloc: Global, value: &Value, key: &str) -> Result<Text, JsonFault>
    ensures read { Reads (λ text. text) (needed_at key.now text_of (get key.now (view value.now))) result }
    ensures fits { IfOk result IsUtf8 }
{
    match value.get(key) {
        Some(held) => under(alloc, key, text_from(alloc, held)),
        None => Err(JsonFault::MissingKey(text_of(alloc, key)?)),
    }
}

pub fn optional_text(alloc: Global, value: &Value, key: &str) -> Result<Option<Text>, JsonFault>
    ensures read { Reads (λ text. text) (optional_at key.now text_of (get key.now (view value.now))) result }
    ensures fits { IfOk result (λ o. IfSome o IsUtf8) }
{
    match value.get(key) {
        Some(held) => Ok(Some(under(alloc, key, text_from(alloc, held))?)),
        None => Ok(None),
    }
}

pub fn optional_bool(alloc: Global, value: &Value, key: &str) -> Result<Option<bool>, JsonFault>
    ensures read { Reads truth (optional_at key.now (scalar_of key.now schema.Bool) (get key.now (view value.now))) result }
    ensures fits { IfOk result (λ o. IfSome (truth o) (InJson key.now schema.Bool)) }
{
    match value.get(key) {
        Some(held) => Ok(Some(under(alloc, key, bool_from(alloc, held))?)),
        None => Ok(None),
    }
}

pub fn optional_u64(alloc: Global, value: &Value, key: &str) -> Result<Option<u64>, JsonFault>
    ensures read { Reads natural (optional_at key.now (scalar_of key.now schema.U64) (get key.now (view value.now))) result }
    ensures fits { IfOk result (λ o. IfSome (natural o) (InJson key.now schema.U64)) }
{
    match value.get(key) {
        Some(held) => Ok(Some(under(alloc, key, natural_from(alloc, held, 0, u64::MAX))?)),
        None => Ok(None),
    }
}

/// A whole number of at most 32 bits.
pub fn u32_from(alloc: Global, value: &Value, low: u32, high: u32) -> Result<u32, JsonFault>
    ensures read { result ≡ natural_of low high (view value.now) }
    ensures above { IfOk result (λ n. low ≤ n) }
    ensures below { IfOk result (λ n. n ≤ high) }
{
    Ok(natural_from(alloc, value, u64::from(low), u64::from(high))? as u32)
}

fn i32_from(alloc: Global, value: &Value) -> Result<i32, JsonFault>
    ensures { result ≡ scalar_of [] schema.I32 (view value.now) }
{
    Ok(signed_from(alloc, value, i64::from(i32::MIN), i64::from(i32::MAX))? as i32)
}

pub fn optional_u32(alloc: Global, value: &Value, key: &str) -> Result<Option<u32>, JsonFault>
    ensures read { Reads natural (optional_at key.now (scalar_of key.now schema.U32) (get key.now (view value.now))) result }
    ensures fits { IfOk result (λ o. IfSome (natural o) (InJson key.now schema.U32)) }
{
    match value.get(key) {
        Some(held) => Ok(Some(under(alloc, key, u32_from(alloc, held, 0, u32::MAX))?)),
        None => Ok(None),
    }
}

/// The number of an enum that goes from `first` to `last`. That of incrementality ends at FULL_DATASET: a DIFFERENTIAL
/// snapshot isn't taken, neither as bytes nor as JSON.
pub fn optional_enum(
    alloc: Global,
    value: &Value,
    key: &str,
    first: u32,
    last: u32,
) -> Result<Option<u32>, JsonFault>
    ensures read { Reads natural (optional_at key.now (scalar_of key.now (schema.Enum first last)) (get key.now (view value.now))) result }
    ensures fits { IfOk result (λ o. IfSome (natural o) (InJson key.now (schema.Enum first last))) }
{
    let last = if key == "incrementality" { 0 } else { last };
    match value.get(key) {
        Some(held) => Ok(Some(under(alloc, key, u32_from(alloc, held, first, last))?)),
        None => Ok(None),
    }
}

/// A number from `first` to `last`, or `more`.
fn number_or_from(
    alloc: Global,
    value: &Value,
    first: u32,
    last: u32,
    more: u32,
) -> Result<u32, JsonFault>
    ensures read { result ≡ natural_or_of first last more (view value.now) }
    ensures fits { IfOk result (λ n. InRange (schema.EnumOr first last more) (pos n)) }
{
    match value.as_u64() {
        Some(number) => {
            if u64::from(first) <= number && number <= u64::from(last)
                || number == u64::from(more)
            {
                Ok(number as u32)
            } else {
                Err(out_of_range(alloc))
            }
        }
        None => {
            if value.as_i64().is_some() {
                Err(out_of_range(alloc))
            } else {
                Err(wrong_kind(alloc))
            }
        }
    }
}

/// The number of an enum that goes from `first` to `last`, and has one number more.
pub fn optional_enum_or(
    alloc: Global,
    value: &Value,
    key: &str,
    first: u32,
    last: u32,
    more: u32,
) -> Result<Option<u32>, JsonFault>
    ensures read { Reads natural (optional_at key.now (scalar_of key.now (schema.EnumOr first last more)) (get key.now (view value.now))) result }
    ensures fits { IfOk result (λ o. IfSome (natural o) (InJson key.now (schema.EnumOr first last more))) }
{
    match value.get(key) {
        Some(held) => Ok(Some(under(alloc, key, number_or_from(alloc, held, first, last, more))?)),
        None => Ok(None),
    }
}

pub fn optional_i32(alloc: Global, value: &Value, key: &str) -> Result<Option<i32>, JsonFault>
    ensures read { Reads (λ z. z) (optional_at key.now (scalar_of key.now schema.I32) (get key.now (view value.now))) result }
    ensures fits { IfOk result (λ o. IfSome o (InJson key.now schema.I32)) }
{
    match value.get(key) {
        Some(held) => Ok(Some(under(alloc, key, i32_from(alloc, held))?)),
        None => Ok(None),
    }
}

pub fn optional_i64(alloc: Global, value: &Value, key: &str) -> Result<Option<i64>, JsonFault>
    ensures read { Reads (λ z. z) (optional_at key.now (scalar_of key.now schema.I64) (get key.now (view value.now))) result }
    ensures fits { IfOk result (λ o. IfSome o (InJson key.now schema.I64)) }
{
    match value.get(key) {
        Some(held) => Ok(Some(under(alloc, key, signed_from(alloc, held, i64::MIN, i64::MAX))?)),
        None => Ok(None),
    }
}

/// Bits of a float are read as the whole number that they are.
pub fn needed_bits32(alloc: Global, value: &Value, key: &str) -> Result<u32, JsonFault>
    ensures read { Reads pos (needed_at key.now (scalar_of key.now schema.Bits32) (get key.now (view value.now))) result }
    ensures fits { IfOk result (λ n. InJson key.now schema.Bits32 (pos n)) }
{
    match value.get(key) {
        Some(held) => under(alloc, key, u32_from(alloc, held, 0, u32::MAX)),
        None => Err(JsonFault::MissingKey(text_of(alloc, key)?)),
    }
}

pub fn optional_bits32(alloc: Global, value: &Value, key: &str) -> Result<Option<u32>, JsonFault>
    ensures read { Reads natural (optional_at key.now (scalar_of key.now schema.Bits32) (get key.now (view value.now))) result }
    ensures fits { IfOk result (λ o. IfSome (natural o) (InJson key.now schema.Bits32)) }
{
    optional_u32(alloc, value, key)
}

pub fn optional_bits64(alloc: Global, value: &Value, key: &str) -> Result<Option<u64>, JsonFault>
    ensures read { Reads natural (optional_at key.now (scalar_of key.now schema.Bits64) (get key.now (view value.now))) result }
    ensures fits { IfOk result (λ o. IfSome (natural o) (InJson key.now schema.Bits64)) }
{
    optional_u64(alloc, value, key)
}

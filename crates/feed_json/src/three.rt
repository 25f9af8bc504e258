//! Three messages that may be there, and the unknown fields behind them: the end of an entity.
ghost use Rattle.std.specs.Prelude.{◌≡◌, false, map, codes, IfOk, IfSome};
ghost use Rattle.std.specs.Option.{option_map};
ghost use Rattle.std.specs.List.{AllByRecursion};
ghost use Rattle.serde_json.specs.Find.{get};
ghost use Rattle.serde_json.specs.View.{view};
ghost use Rattle.feed_values.specs.Views.{unknown_field};
ghost use Rattle.feed_values.specs.WellFormed.{IsUnknown};
ghost use Rattle.feed_json.specs.Faults.{paired};
ghost use Rattle.feed_json.specs.Holds.{Holds};
ghost use Rattle.feed_json.specs.Later.{has_later};
ghost use Rattle.feed_json.specs.Reads.{Reads};
ghost use Rattle.feed_json.specs.Unform.{unform, unknown_of, optional_at, array_at};

use crate::json_fault::JsonFault;
use crate::message::{Form, optional_message};
use crate::unknown::{UnknownItems, unknown_fields};
use feed_values::{Items, Unknown};
use serde_json::Value;
use std::alloc::Global;

/// Three messages that may be there, and unknown fields.
///
/// The kinds of messages are parameters, so that a way out of the function below gives up three values, and not all that they are
/// made of: that is what takes long to prove.
#[derive(Drop)]
pub struct Three<A, B, C> {
    pub first: Option<A>,
    pub second: Option<B>,
    pub third: Option<C>,
    pub unknown: Items<Unknown>,
}

/// The messages at three keys, and the unknown fields of a message of kind `M`.
pub fn three_from<A: Form, B: Form, C: Form, M: UnknownItems>(
    alloc: Global,
    value: &Value,
    first: &str,
    second: &str,
    third: &str,
) -> Result<Three<A, B, C>, JsonFault>
    requires { has_later M.schema ≡ false }
    ensures read { Reads (λ three. (option_map A.value three.first, (option_map B.value three.second, (option_map C.value three.third, map unknown_field three.unknown))))
        (paired (optional_at first.now (unform A.schema) (get first.now (view value.now)))
        (paired (optional_at second.now (unform B.schema) (get second.now (view value.now)))
        (paired (optional_at third.now (unform C.schema) (get third.now (view value.now)))
        (array_at (codes "unknown") (unknown_of M.schema) (get (codes "unknown") (view value.now)))))) result }
    ensures first { IfOk result (λ three. IfSome (option_map A.value three.first) (Holds A.schema A.schema)) }
    ensures second { IfOk result (λ three. IfSome (option_map B.value three.second) (Holds B.schema B.schema)) }
    ensures third { IfOk result (λ three. IfSome (option_map C.value three.third) (Holds C.schema C.schema)) }
    ensures unknown { IfOk result (λ three. AllByRecursion (IsUnknown M.schema) (map unknown_field three.unknown)) }
{
    Ok(Three {
        first: optional_message(alloc, value, first)?,
        second: optional_message(alloc, value, second)?,
        third: optional_message(alloc, value, third)?,
        unknown: unknown_fields::<M>(alloc, value)?,
    })
}

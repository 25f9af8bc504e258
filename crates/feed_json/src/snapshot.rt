//! A snapshot as JSON, and from it.
ghost use Rattle.std.specs.Prelude.{◌≡◌, ◌≢◌, false, Ok, Err, IfOk, IfErr};
ghost use Rattle.serde_json.specs.View.{view};
ghost use Rattle.serde_json.specs.Written.{has_float};
ghost use Rattle.feed_values.specs.Messages.{feed_message};
ghost use Rattle.feed_values.specs.Views.{feed_message_value};
ghost use Rattle.feed_values.specs.WellFormed.{IsWellFormedFeed};
ghost use Rattle.feed_json.specs.declared.json_fault.JsonFault.TheVariants as fault;
ghost use Rattle.feed_json.specs.Form.{form};
ghost use Rattle.feed_json.specs.Unform.{unform};

use crate::json_fault::JsonFault;
use crate::message::{message_from, message_tree};
use feed_values::FeedMessage;
use serde_json::Value;
use std::alloc::{AllocError, Global};

/// The form of a snapshot. It is asked of a well-formed message; any other has a tree too, which need not be read as it.
pub fn to_json(alloc: Global, message: &FeedMessage) -> Result<Value, AllocError>
    ensures no_float { IfOk result (λ value. has_float (view value) ≡ false) }
    ensures tree { IfOk result (λ value. view value ≡ form feed_message (feed_message_value message.now)) }
{
    message_tree(alloc, message)
}

/// The snapshot that a tree says, or the first fault of the tree.
///
/// The answer goes by the tree alone: not by the order of the keys in its text, nor by keys that stood there twice, of
/// which `serde_json` holds the last.
#[tactic(auto, using(crate::proofs::Holding::feed_fits))]
pub fn from_json(alloc: Global, value: &Value) -> Result<FeedMessage, JsonFault>
    ensures ok { IfOk result (λ message. unform feed_message (view value.now) ≡ Ok (feed_message_value message)) }
    ensures well_formed { IfOk result (λ message. IsWellFormedFeed (feed_message_value message)) }
    ensures err { IfErr result (λ e. e ≢ fault.Memory → unform feed_message (view value.now) ≡ Err e) }
{
    message_from(alloc, value)
}

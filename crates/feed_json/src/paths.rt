//! Faults seen from the root: the path of a fault grows by a key on its way out, so only a fault costs a path.
ghost use Rattle.std.specs.Prelude.{◌≡◌, ◌≢◌, [], Ok, Err, IfOk, IfErr};
ghost use Rattle.std.specs.Str.{IsUtf8};
ghost use Rattle.feed_json.specs.Faults.{below, dotted, fault_below, under};
ghost use Rattle.feed_json.specs.declared.json_fault.JsonFault.TheVariants as fault;

use crate::json_fault::JsonFault;
use feed_values::Text;
use std::alloc::{AllocError, Global};

/// A text with memory of its own.
pub fn text_of(alloc: Global, words: &str) -> Result<Text, AllocError>
    ensures text { IfOk result (λ text. text ≡ words.now) }
    ensures utf8 { IfOk result IsUtf8 }
{
    Text::of(alloc, words)
}

/// The path of a place in what stands at a key.
fn path_below(alloc: Global, key: &str, path: &Text) -> Result<Text, AllocError>
    ensures { IfOk result (λ text. text ≡ below key.now path.now) }
{
    let mut text = text_of(alloc, key)?;
    let rest = path.as_str();
    if !rest.is_empty() {
        text.push(".")?;
        text.push(rest)?;
    }
    Ok(text)
}

/// The path of a key in what stands at a key.
fn path_dotted(alloc: Global, key: &str, path: &Text) -> Result<Text, AllocError>
    ensures { IfOk result (λ text. text ≡ dotted key.now path.now) }
{
    let mut text = text_of(alloc, key)?;
    text.push(".")?;
    text.push(path.as_str())?;
    Ok(text)
}

/// A fault in what stands at a key.
fn fault_below(alloc: Global, key: &str, fault: JsonFault) -> Result<JsonFault, AllocError>
    ensures { IfOk result (λ new. new ≡ fault_below key.now fault) }
{
    Ok(match fault {
        JsonFault::WrongKind(path) => JsonFault::WrongKind(path_below(alloc, key, &path)?),
        JsonFault::UnknownKey(path) => JsonFault::UnknownKey(path_dotted(alloc, key, &path)?),
        JsonFault::OutOfRange(path) => JsonFault::OutOfRange(path_below(alloc, key, &path)?),
        JsonFault::MissingKey(path) => JsonFault::MissingKey(path_dotted(alloc, key, &path)?),
        JsonFault::Memory => JsonFault::Memory,
    })
}

/// What was read at a key, its fault seen from the object that has the key. It takes memory only for a fault.
pub fn under<T>(alloc: Global, key: &str, read: Result<T, JsonFault>) -> Result<T, JsonFault>
    ensures ok { IfOk result (λ value. read ≡ Ok value) }
    ensures err { IfErr result (λ e. e ≢ fault.Memory → under key.now read ≡ Err e) }
{
    match read {
        Ok(value) => Ok(value),
        Err(fault) => Err(fault_below(alloc, key, fault)?),
    }
}

/// The fault of what is of another kind.
pub fn wrong_kind(alloc: Global) -> JsonFault
    ensures { result ≡ fault.WrongKind [] }
{
    JsonFault::WrongKind(Text::new(alloc))
}

/// The fault of what is of the right kind, and not in its range.
pub fn out_of_range(alloc: Global) -> JsonFault
    ensures { result ≡ fault.OutOfRange [] }
{
    JsonFault::OutOfRange(Text::new(alloc))
}

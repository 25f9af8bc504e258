//! The snapshot that a JSON file says.
ghost use Rattle.std.specs.Prelude.{◌≡◌, ◌≢◌, Ok, Err, None, Some, IfSome, IfOk, IfErr, IsErrOf, string_bytes};
ghost use Rattle.std.specs.FinMap.{get};
ghost use Rattle.rt_outside.specs.Causes.{Rose};
ghost use Rattle.rt_outside.specs.Store.{contents_told};
ghost use Rattle.feed_values.specs.Views.{feed_message_value};
ghost use Rattle.feed_values.specs.WellFormed.{IsWellFormedFeed};
ghost use Rattle.json_entities.specs.FromText.{text_message};
ghost use Rattle.run_base.specs.Faults.{refused_text};
ghost use Rattle.run_json.specs.JsonInputs.{TellsJsonFault, at_path, input_message, input_text, of_text};
ghost use Rattle.run_json.specs.declared.json_input_fault.JsonInputFault.TheVariants as fault;

use crate::json_input_fault::JsonInputFault;
use feed_values::FeedMessage;
use json_entities::from_text;
use rt_outside::{Files, ReadEnd, read_whole};
use run_base::{InputFault, refused_text};
use std::alloc::{AllocError, Global};

/// The most bytes that a JSON file may have.
const JSON_LIMIT: usize = 268_435_456;

/// The snapshot that the JSON file of this name says, or the first thing that is wrong with it.
///
/// The bytes of the file are held while they are read, and given up before the answer. A read fault comes only where a call fails.
pub fn input_message<F: Files>(
    alloc: Global,
    files: &mut F,
    name: &str,
) -> Result<FeedMessage, JsonInputFault>
    ensures ok { IfSome (contents_told (F.state files.old).told) (λ held. IfOk result (λ message.
        input_message (get held name.now) ≡ Ok (feed_message_value message))) }
    ensures well_formed { IfOk result (λ message. IsWellFormedFeed (feed_message_value message)) }
    ensures err { IfSome (contents_told (F.state files.old).told) (λ held. IfErr result (λ e.
        e ≢ fault.ReadFault → e ≢ fault.Memory → input_message (get held name.now) ≡ Err e)) }
    ensures asked { IfSome (F.state files.new).asked (λ last. last ≡ name.now) }
    ensures read { IsErrOf result fault.ReadFault → Rose (F.state files.old).faults (F.state files.new).faults }
{
    match read_whole(alloc, files, name, JSON_LIMIT) {
        Ok(bytes) => message_of(alloc, &bytes),
        Err(ReadEnd::Absent) => Err(JsonInputFault::MissingFile),
        Err(ReadEnd::TooLarge) => Err(JsonInputFault::TooLarge),
        Err(ReadEnd::ReadFault) => Err(JsonInputFault::ReadFault),
        Err(ReadEnd::Memory) => Err(JsonInputFault::Memory),
    }
}

// The snapshot that a text says.
fn message_of(alloc: Global, text: &[u8]) -> Result<FeedMessage, JsonInputFault>
    ensures ok { IfOk result (λ message. of_text (text_message text.now) ≡ Ok (feed_message_value message)) }
    ensures well_formed { IfOk result (λ message. IsWellFormedFeed (feed_message_value message)) }
    ensures err { IfErr result (λ e. e ≢ fault.Memory → of_text (text_message text.now) ≡ Err e) }
    ensures not_read { IsErrOf result fault.ReadFault → ⊥ }
{
    match from_text(alloc, text) {
        Ok(message) => Ok(message),
        Err(fault) => Err(JsonInputFault::from(fault)),
    }
}

/// Why the message of the JSON file of this name isn't had, as it is told.
pub fn told_as<'a>(alloc: Global, name: &'a str, fault: &JsonInputFault) -> InputFault<'a>
    ensures { TellsJsonFault name.now fault.now result }
{
    match fault {
        JsonInputFault::ReadFault => InputFault::Read(name),
        JsonInputFault::Memory => InputFault::Memory,
        _ => match input_text(alloc, name, fault) {
            Ok(text) => InputFault::Refused(text),
            Err(_) => InputFault::Memory,
        },
    }
}

// The text of a refused JSON file, which is empty where the fault is none of its contents.
fn input_text(alloc: Global, name: &str, fault: &JsonInputFault) -> Result<String, AllocError>
    ensures { IfOk result (λ text. string_bytes text ≡ input_text name.now fault.now) }
{
    match fault {
        JsonInputFault::MissingFile => refused_text(alloc, name, "missing file"),
        JsonInputFault::TooLarge => refused_text(alloc, name, "too large"),
        JsonInputFault::NotJson => refused_text(alloc, name, "not JSON"),
        JsonInputFault::WrongKind(path) => refused_at(alloc, name, path.as_str(), "wrong kind"),
        JsonInputFault::UnknownKey(path) => refused_at(alloc, name, path.as_str(), "unknown key"),
        JsonInputFault::OutOfRange(path) => refused_at(alloc, name, path.as_str(), "out of range"),
        JsonInputFault::MissingKey(path) => refused_at(alloc, name, path.as_str(), "missing key"),
        JsonInputFault::ReadFault | JsonInputFault::Memory => Ok(String::new(alloc)),
    }
}

// The text of what is wrong at a path in a file.
fn refused_at(alloc: Global, name: &str, path: &str, why: &str) -> Result<String, AllocError>
    ensures { IfOk result (λ text. string_bytes text ≡ refused_text name.now (at_path path.now why.now)) }
{
    let at = at_path(alloc, path, why)?;
    refused_text(alloc, name, at.as_str())
}

fn at_path(alloc: Global, path: &str, why: &str) -> Result<String, AllocError>
    ensures { IfOk result (λ text. string_bytes text ≡ at_path path.now why.now) }
{
    let mut text = String::from_str(alloc, path)?;
    text.push_str(": ")?;
    text.push_str(why)?;
    Ok(text)
}

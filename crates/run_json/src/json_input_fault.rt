//! Why a JSON file isn't taken.
ghost use Rattle.std.specs.Prelude.{◌≡◌};
ghost use Rattle.run_json.specs.declared.json_input_fault.JsonInputFault.TheVariants.{Memory};
ghost use Rattle.run_json.specs.JsonInputs.{input_fault, text_fault};

use feed_json::JsonFault;
use feed_values::Text;
use json_entities::TextFault;
use std::alloc::AllocError;

/// Why the message of a JSON file isn't had. A path is that of the first fault of the file's tree.
#[derive(Debug, Drop)]
pub enum JsonInputFault {
    /// The file isn't there.
    MissingFile,
    /// The file has more than 268,435,456 bytes.
    TooLarge,
    /// The bytes aren't UTF-8, or the text is no JSON, or nests more than 127 levels deep.
    NotJson,
    /// The value at the path is of another kind than its field.
    WrongKind(Text),
    /// The object has a key that is no field of its message.
    UnknownKey(Text),
    /// The value at the path is none of its field's.
    OutOfRange(Text),
    /// A required field isn't there.
    MissingKey(Text),
    /// The file couldn't be read.
    ReadFault,
    /// No memory was found.
    Memory,
}

impl From<AllocError> for JsonInputFault {
    ghost from_gives = { λ _ e. e ≡ Memory };

    fn from(_: AllocError) -> Self {
        JsonInputFault::Memory
    }
}

impl From<JsonFault> for JsonInputFault {
    ghost from_gives = { λ fault e. e ≡ input_fault fault };

    fn from(fault: JsonFault) -> Self {
        match fault {
            JsonFault::WrongKind(path) => JsonInputFault::WrongKind(path),
            JsonFault::UnknownKey(path) => JsonInputFault::UnknownKey(path),
            JsonFault::OutOfRange(path) => JsonInputFault::OutOfRange(path),
            JsonFault::MissingKey(path) => JsonInputFault::MissingKey(path),
            JsonFault::Memory => JsonInputFault::Memory,
        }
    }
}

impl From<TextFault> for JsonInputFault {
    ghost from_gives = { λ fault e. e ≡ text_fault fault };

    fn from(fault: TextFault) -> Self {
        match fault {
            TextFault::NotJson => JsonInputFault::NotJson,
            TextFault::Message(fault) => JsonInputFault::from(fault),
        }
    }
}

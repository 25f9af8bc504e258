//! Why a text is no snapshot.
ghost use Rattle.std.specs.Prelude.{◌≡◌};
ghost use Rattle.feed_json.specs.declared.json_fault.JsonFault.TheVariants as fault;
ghost use Rattle.json_entities.specs.declared.text_fault.TextFault.TheVariants.{Message};

use feed_json::JsonFault;
use std::alloc::AllocError;

/// Why the message of a text isn't had.
#[derive(Debug, Drop)]
pub enum TextFault {
    /// The bytes aren't UTF-8, or the text is no JSON, nests more than 127 levels deep, or has a number above all floats.
    NotJson,
    /// The first fault of the text's tree, or want of memory.
    Message(JsonFault),
}

impl From<AllocError> for TextFault {
    ghost from_gives = { λ _ e. e ≡ Message fault.Memory };

    fn from(_: AllocError) -> Self {
        TextFault::Message(JsonFault::Memory)
    }
}

impl From<JsonFault> for TextFault {
    ghost from_gives = { λ f e. e ≡ Message f };

    fn from(fault: JsonFault) -> Self {
        TextFault::Message(fault)
    }
}

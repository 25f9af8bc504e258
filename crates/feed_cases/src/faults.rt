//! What is wrong, in words.

use cases::say;
use feed_codec::{CodecFault, Refusal};
use std::alloc::{AllocError, Global};

// The reason of a refusal, and its place.
fn refusal_text(alloc: Global, refusal: Refusal) -> Result<String, AllocError> {
    format!(in alloc; "{:?} at {}", refusal.reason, refusal.at)
}

/// The reason of a fault and its place, or that no memory is left.
pub fn fault_text(alloc: Global, fault: CodecFault) -> Result<String, AllocError> {
    match fault {
        CodecFault::Refused(refusal) => refusal_text(alloc, refusal),
        CodecFault::Memory => format!(in alloc; "{fault}"),
    }
}

/// The line `accepted`, or that of a refusal.
pub fn say_checked(
    alloc: Global,
    checked: Result<(), Refusal>,
    answer: &mut Vec<u8>,
) -> Result<(), AllocError> {
    match checked {
        Ok(()) => say(answer, "accepted"),
        Err(refusal) => say(answer, refusal_text(alloc, refusal)?.as_str()),
    }
}

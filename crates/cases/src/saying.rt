//! The lines of an answer.

use std::alloc::{AllocError, Global};
use std::fmt::Display;

/// A line of an answer.
pub fn say(answer: &mut Vec<u8>, line: &str) -> Result<(), AllocError> {
    answer.extend_from_slice(line.as_bytes())?;
    answer.extend_from_slice(b"\n")
}

/// A line with a value, or `none`.
pub fn say_some<T: Display + Drop>(
    alloc: Global,
    answer: &mut Vec<u8>,
    value: Option<T>,
) -> Result<(), AllocError> {
    match value {
        Some(value) => say(answer, format!(in alloc; "{value}")?.as_str()),
        None => say(answer, "none"),
    }
}

/// A line `yes` or `no`.
pub fn say_whether(answer: &mut Vec<u8>, holds: bool) -> Result<(), AllocError> {
    say(answer, if holds { "yes" } else { "no" })
}

/// A line of bytes in hex digits.
pub fn say_hex(alloc: Global, answer: &mut Vec<u8>, bytes: &[u8]) -> Result<(), AllocError> {
    say(answer, hex::encode(alloc, bytes)?.as_str())
}

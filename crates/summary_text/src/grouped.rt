//! Numbers, and what is counted.

use std::alloc::{AllocError, Global};
use std::fmt::Write;

/// Appends a number, with a comma before each three digits.
pub fn push_grouped(alloc: Global, out: &mut String, number: u64) -> Result<(), AllocError> {
    let digits = format!(in alloc; "{number}")?;
    let mut left = digits.as_str().len();
    for c in digits.as_str().chars() {
        out.push(c)?;
        left = left.saturating_sub(1);
        if left > 0 && left % 3 == 0 {
            out.push(',')?;
        }
    }
    Ok(())
}

/// Appends how many there are of what has this name: `1 finding`, `2 findings`.
pub fn push_counted(
    alloc: Global,
    out: &mut String,
    number: u64,
    one: &str,
    many: &str,
) -> Result<(), AllocError> {
    push_grouped(alloc, out, number)?;
    let name = if number == 1 { one } else { many };
    write!(out, " {name}")
}

//! Texts of a report, as a terminal may show them.

use std::alloc::AllocError;
use std::fmt::Write;

// Characters that don't show, or that turn the text around them.
fn is_unseen(c: char) -> bool {
    matches!(c, '\u{0}'..='\u{1f}' | '\u{7f}'..='\u{9f}' | '\u{ad}' | '\u{61c}' | '\u{200b}'..='\u{200f}'
        | '\u{2028}'..='\u{202e}' | '\u{2060}'..='\u{206f}' | '\u{feff}' | '\u{fff9}'..='\u{fffb}')
}

/// How many columns a character takes, or its escape: at least as many as a terminal gives it.
pub fn columns_of(c: char) -> usize {
    if is_unseen(c) {
        6
    } else if c < '\u{1100}' {
        1
    } else {
        2
    }
}

fn push_char(out: &mut String, c: char) -> Result<(), AllocError> {
    if is_unseen(c) {
        let code = c as u32;
        write!(out, "\\u{code:04x}")
    } else {
        out.push(c)
    }
}

/// Appends a text, of which at most so many columns are shown.
pub fn push_visible(out: &mut String, text: &str, most: usize) -> Result<(), AllocError> {
    let mut left = most;
    for c in text.chars() {
        let columns = columns_of(c);
        if columns > left {
            return out.push_str("...");
        }
        left -= columns;
        push_char(out, c)?;
    }
    Ok(())
}

/// Appends a text in quotes.
pub fn push_quoted(out: &mut String, text: &str) -> Result<(), AllocError> {
    out.push_str("\"")?;
    push_visible(out, text, 48)?;
    out.push_str("\"")
}

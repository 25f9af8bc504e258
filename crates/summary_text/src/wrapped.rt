//! Paragraphs of at most 80 columns.

use crate::visible::columns_of;
use std::alloc::AllocError;

const WIDTH: usize = 80;

fn width_of(word: &str) -> usize {
    let mut width: usize = 0;
    for c in word.chars() {
        width = width.saturating_add(columns_of(c));
    }
    width
}

/// Appends a paragraph, each of whose lines begins with an indent, and a line feed. A word that is wider than a line stands alone.
pub fn push_wrapped(out: &mut String, indent: &str, text: &str) -> Result<(), AllocError> {
    out.push_str(indent)?;
    let margin = width_of(indent);
    let mut column = margin;
    for word in text.split(' ') {
        let width = width_of(word);
        if column > margin && column.saturating_add(width) >= WIDTH {
            out.push_str("\n")?;
            out.push_str(indent)?;
            column = margin;
        } else if column > margin {
            out.push_str(" ")?;
            column = column.saturating_add(1);
        }
        out.push_str(word)?;
        column = column.saturating_add(width);
    }
    out.push_str("\n")
}

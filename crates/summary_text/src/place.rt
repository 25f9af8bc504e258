//! Where the first finding of a rule stands.

use crate::visible::{push_quoted, push_visible};
use report_lines::{count_at, text_at};
use serde_json::Value;
use std::alloc::AllocError;
use std::fmt::Write;

/// Appends the place that a finding with this tree names: its entity, or the header, and the path.
pub fn push_place(out: &mut String, finding: &Value) -> Result<(), AllocError> {
    let feed = count_at(finding, "feed").unwrap_or(0);
    match text_at(finding, "id") {
        Some(id) => {
            push_quoted(out, id)?;
            let occurrence = count_at(finding, "occurrence").unwrap_or(0);
            if occurrence > 0 {
                write!(out, " (occurrence {occurrence})")?;
            }
        }
        None => out.push_str("the header")?,
    }
    write!(out, " of feed {feed}, ")?;
    push_visible(out, text_at(finding, "path").unwrap_or("?"), 70)
}

/// Whether a finding with this tree stands on a header.
pub fn is_on_header(finding: &Value) -> bool {
    finding.get("id").is_none()
}

//! The lines that `verify` writes.
ghost use Rattle.std.specs.Prelude.{◌≡◌, IfOk, OnOk, ◌++◌};
ghost use Rattle.serde_json.specs.View.{view};
ghost use Rattle.snapshot_lines.specs.Lines.{line_of};
ghost use Rattle.run_verify.specs.Lines.{sum, verdict, verdict_text};

use crate::counts::Counts;
use crate::judged::Judged;
use serde_json::{Value, json};
use snapshot_lines::line_of;
use std::alloc::{AllocError, Global};

fn verdict_value(alloc: Global, number: u64, name: &str) -> Result<Value, AllocError>
    ensures { IfOk result (λ value. view value ≡ verdict number name.now) }
{
    json!(in alloc; {
        "line": "verdict",
        "number": number,
        "verdict": name,
    })
}

fn sum_value(alloc: Global, counts: Counts) -> Result<Value, AllocError>
    ensures { IfOk result (λ value. view value ≡ sum counts) }
{
    json!(in alloc; {
        "confirmed": counts.confirmed,
        "denied": counts.denied,
        "line": "verify",
        "malformed": counts.malformed,
        "other": counts.other,
    })
}

/// Appends the line of the verdict on the line with this number, from 1. Nothing is said of another line of a report.
pub fn push_verdict(
    alloc: Global,
    number: u64,
    judged: Judged,
    text: &mut Vec<u8>,
) -> Result<(), AllocError>
    ensures { OnOk result (text.new.items ≡ text.old.items ++ verdict_text number judged) }
{
    match judged {
        Judged::Confirmed => push_named(alloc, number, "confirmed", text),
        Judged::Denied => push_named(alloc, number, "denied", text),
        Judged::Other => Ok(()),
        Judged::Malformed => push_named(alloc, number, "malformed", text),
    }
}

fn push_named(alloc: Global, number: u64, name: &str, text: &mut Vec<u8>) -> Result<(), AllocError>
    ensures { OnOk result (text.new.items ≡ text.old.items ++ line_of (verdict number name.now)) }
{
    let value = verdict_value(alloc, number, name)?;
    let line = line_of(alloc, &value)?;
    text.extend_from_slice(&line)
}

/// Appends the line that sums up.
pub fn push_sum(alloc: Global, counts: Counts, text: &mut Vec<u8>) -> Result<(), AllocError>
    ensures { OnOk result (text.new.items ≡ text.old.items ++ line_of (sum counts)) }
{
    let value = sum_value(alloc, counts)?;
    let line = line_of(alloc, &value)?;
    text.extend_from_slice(&line)
}

//! The lines of alerts.
ghost use Rattle.std.specs.Prelude.{◌≡◌, IfOk, OnOk, ◌++◌};
ghost use Rattle.serde_json.specs.View.{view};
ghost use Rattle.snapshot_lines.specs.Lines.{line_of};
ghost use Rattle.rt_report.specs.Tokens.{Adds, tokens_of};
ghost use Rattle.run_alerts.specs.Lines.{alert, alert_text, next_data, sum};

use json::Writer;
use rule_table::EntityKey;
use serde_json::{Value, json};
use snapshot_lines::line_of;
use std::alloc::{AllocError, Global};

fn push_alert(out: &mut Writer, key: &EntityKey) -> Result<(), AllocError>
    ensures { OnOk result (Adds out.old out.new (tokens_of (alert key.now))) }
{
    out.begin_object()?;
    out.key("feed")?;
    out.u64(key.feed as u64)?;
    out.key("id")?;
    out.string(key.id.as_str())?;
    out.key("line")?;
    out.string("alert")?;
    out.key("occurrence")?;
    out.u64(key.occurrence as u64)?;
    out.end_object()
}

/// A text, and behind it the line of an alert, whose entity has this key.
pub fn with_alert(text: Vec<u8>, key: &EntityKey) -> Result<Vec<u8>, AllocError>
    ensures { IfOk result (λ longer. longer.items ≡ text.items ++ alert_text key.now) }
{
    let mut out = Writer::new(text);
    push_alert(&mut out, key)?;
    let mut longer = out.into_inner();
    longer.push(b'\n')?;
    Ok(longer)
}

// A moment, or null where there is none.
fn next_value(alloc: Global, next: Option<u64>) -> Result<Value, AllocError>
    ensures { IfOk result (λ value. view value ≡ next_data next) }
{
    match next {
        Some(moment) => json!(in alloc; moment),
        None => Ok(Value::Null),
    }
}

fn sum_value(alloc: Global, count: u64, next: Option<u64>) -> Result<Value, AllocError>
    ensures { IfOk result (λ value. view value ≡ sum count next) }
{
    let next = next_value(alloc, next)?;
    json!(in alloc; {
        "alerts": count,
        "line": "alerts",
        "next": next,
    })
}

/// Appends the line that sums up: how many alerts are in force, and the next moment at which that can change.
pub fn push_sum(
    alloc: Global,
    count: u64,
    next: Option<u64>,
    text: &mut Vec<u8>,
) -> Result<(), AllocError>
    ensures { OnOk result (text.new.items ≡ text.old.items ++ line_of (sum count next)) }
{
    let value = sum_value(alloc, count, next)?;
    let line = line_of(alloc, &value)?;
    text.extend_from_slice(&line)
}

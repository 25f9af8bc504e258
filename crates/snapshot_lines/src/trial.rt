//! The summary of the trial.
ghost use Rattle.std.specs.Prelude.{◌≡◌, IfOk};
ghost use Rattle.serde_json.specs.View.{view};
ghost use Rattle.snapshot_lines.specs.Lines.{line_of, trial};

use crate::line::line_of;
use serde_json::{Value, json};
use std::alloc::{AllocError, Global};

/// What the line that sums up a trial says. All but `snapshots` and `findings` are sums over the snapshots.
#[derive(Clone, Copy, Debug)]
pub struct TrialSums {
    /// How many snapshots were followed.
    pub snapshots: u64,
    /// How many findings stand after the last of them.
    pub findings: u64,
    /// How many findings were opened.
    pub opened: u64,
    /// How many were closed.
    pub closed: u64,
    /// How many entities were judged anew by themselves.
    pub tested: u64,
    /// How many in pairs.
    pub paired: u64,
    /// How many by their bounds.
    pub bounded: u64,
    /// How many by their vehicles' peaks.
    pub peaked: u64,
}

fn trial_value(alloc: Global, sums: &TrialSums) -> Result<Value, AllocError>
    ensures { IfOk result (λ value. view value ≡ trial sums.now) }
{
    json!(in alloc; {
        "bounded": sums.bounded,
        "closed": sums.closed,
        "findings": sums.findings,
        "line": "trial",
        "opened": sums.opened,
        "paired": sums.paired,
        "peaked": sums.peaked,
        "snapshots": sums.snapshots,
        "tested": sums.tested,
    })
}

/// The line that sums up a trial.
pub fn trial_line(alloc: Global, sums: &TrialSums) -> Result<Vec<u8>, AllocError>
    ensures { IfOk result (λ bytes. bytes.items ≡ line_of (trial sums.now)) }
{
    let value = trial_value(alloc, sums)?;
    line_of(alloc, &value)
}

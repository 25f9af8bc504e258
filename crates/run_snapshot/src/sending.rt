//! Lines that are held back until they fill a piece.
ghost use Rattle.std.specs.Prelude.{◌≤◌, OnOk, OnErr, IsErrOf};
ghost use Rattle.rt_outside.specs.Causes.{Rose};
ghost use Rattle.run_snapshot.specs.Sending.{Sends, SendsPart};

use rt_outside::Sink;
use rt_report::Lines;
use rule_table::Finding;
use run_base::{Fault, send_piece};
use std::alloc::Global;

/// Adds the lines of findings to those that are held back. Where these fill a piece, all of them are written.
pub fn send<S: Sink>(
    alloc: Global,
    findings: &[Finding],
    lines: &mut Lines,
    out: &mut S,
) -> Result<(), Fault>
    ensures sent { OnOk result (Sends (S.state out.old).written (S.state out.new).written lines.old lines.new findings.now) }
    ensures part { OnErr result (SendsPart (S.state out.old).written (S.state out.new).written lines.old findings.now) }
    ensures not_read { IsErrOf result Fault.Read → ⊥ }
    ensures later { (S.state out.old).faults ≤ (S.state out.new).faults }
    ensures write { IsErrOf result Fault.Write → Rose (S.state out.old).faults (S.state out.new).faults }
{
    lines.push(alloc, findings)?;
    send_piece(&mut lines.text, out)?;
    Ok(())
}

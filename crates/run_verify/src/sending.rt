//! The verdicts on the lines of a text, sent as they are decided.
ghost use Rattle.std.specs.Prelude.{◌≡◌, ◌≤◌, ◌<◌, ◌++◌, ◌^◌, IfOk, OnOk, OnErr, IsErrOf, length};
ghost use Rattle.rt_outside.specs.Causes.{Rose};
ghost use Rattle.rt_outside.specs.Sink.{AppendsPrefix};
ghost use Rattle.report_verify.specs.Verdicts.{verdict_of};
ghost use Rattle.run_verify.specs.Lines.{AreSmall, counted, counts_of, lines_in, verdict_text, verdicts_text};
ghost use Rattle.run_verify.specs.Judged.{judged_of};
ghost use Rattle.run_base.specs.Sending.{SendsText};

use crate::counts::Counts;
use crate::cutting::cut_line;
use crate::judged::judge;
use crate::lines::push_verdict;
use rt_outside::Sink;
use run_base::{Fault, send_piece};
use std::alloc::Global;

// Sends the verdict on the line with this number, and counts it.
fn send_line<S: Sink>(
    alloc: Global,
    number: u64,
    line: &[u8],
    counts: Counts,
    text: &mut Vec<u8>,
    out: &mut S,
) -> Result<Counts, Fault>
    requires { AreSmall counts }
    ensures counts { IfOk result (λ now. now ≡ counted counts (judged_of (verdict_of line.now))) }
    ensures sent { OnOk result (SendsText (S.state out.old).written (S.state out.new).written (text.old.items ++ verdict_text number (judged_of (verdict_of line.now))) text.new.items) }
    ensures part { OnErr result (AppendsPrefix (S.state out.old).written (S.state out.new).written (text.old.items ++ verdict_text number (judged_of (verdict_of line.now)))) }
    ensures not_read { IsErrOf result Fault.Read → ⊥ }
    ensures later { (S.state out.old).faults ≤ (S.state out.new).faults }
    ensures write { IsErrOf result Fault.Write → Rose (S.state out.old).faults (S.state out.new).faults }
{
    let judged = judge(alloc, line)?;
    push_verdict(alloc, number, judged, text)?;
    send_piece(text, out)?;
    Ok(counts.with(judged))
}

/// Sends the verdicts on the lines of a text behind a text that is held back, and counts them. What fills a piece is written.
pub fn send_verdicts<S: Sink>(
    alloc: Global,
    lines: &[u8],
    text: &mut Vec<u8>,
    out: &mut S,
) -> Result<Counts, Fault>
    requires { length lines.now < 2 ^ 63 }
    ensures counts { IfOk result (λ counts. counts ≡ counts_of (lines_in lines.now)) }
    ensures sent { OnOk result (SendsText (S.state out.old).written (S.state out.new).written (text.old.items ++ verdicts_text 1 (lines_in lines.now)) text.new.items) }
    ensures part { OnErr result (AppendsPrefix (S.state out.old).written (S.state out.new).written (text.old.items ++ verdicts_text 1 (lines_in lines.now))) }
    ensures not_read { IsErrOf result Fault.Read → ⊥ }
    ensures later { (S.state out.old).faults ≤ (S.state out.new).faults }
    ensures write { IsErrOf result Fault.Write → Rose (S.state out.old).faults (S.state out.new).faults }
{
    let mut counts = Counts::none();
    let mut number = 1;
    let mut rest = lines;
    while !rest.is_empty() {
        let (line, behind) = cut_line(rest);
        counts = send_line(alloc, number, line, counts, text, out)?;
        number += 1;
        rest = behind;
    }
    Ok(counts)
}

//! Lines that are held back until they fill a piece.
ghost use Rattle.std.specs.Prelude.{◌≡◌, ◌++◌, ◌≤◌, OnOk, OnErr, IsErrOf};
ghost use Rattle.std.specs.List.{flat_map};
ghost use Rattle.std.specs.Io.KnownBytes.{append_known};
ghost use Rattle.rt_outside.specs.Causes.{Rose};
ghost use Rattle.rt_outside.specs.Sink.{AppendsPrefix};
ghost use Rattle.follow_engine.specs.Deltas.{all_opened, all_closed};
ghost use Rattle.rt_report.specs.declared.finding.LineKind.TheVariants as line;
ghost use Rattle.rt_report.specs.FindingLines.{standing_text, closed_text};
ghost use Rattle.run_base.specs.Sending.{SendsText};
ghost use Rattle.run_rows.specs.Followed.{lines_text};

use crate::row_lines::RowLines;
use follow_engine::{Closed, Opened};
use rt_outside::{Sink, put_all};
use rt_report::{LineKind, closed_line, finding_line};
use run_base::{Fault, send_piece};
use std::alloc::Global;

/// Writes the lines of a row. No more of them is held at a time than a piece and a line.
pub fn put_lines<S: Sink>(alloc: Global, lines: RowLines, out: &mut S) -> Result<(), Fault>
    ensures whole { OnOk result ((S.state out.new).written ≡ append_known (S.state out.old).written (lines_text lines)) }
    ensures part { OnErr result (AppendsPrefix (S.state out.old).written (S.state out.new).written (lines_text lines)) }
    ensures not_read { IsErrOf result Fault.Read → ⊥ }
    ensures later { (S.state out.old).faults ≤ (S.state out.new).faults }
    ensures write { IsErrOf result Fault.Write → Rose (S.state out.old).faults (S.state out.new).faults }
{
    let RowLines {
        first,
        opened,
        closed,
        ..
    } = lines;
    let mut text = first;
    send_opened(alloc, opened.as_slice(), &mut text, out)?;
    send_closed(alloc, closed.as_slice(), &mut text, out)?;
    put_all(out, &text)?;
    Ok(())
}

// Adds the lines of what opened to those that are held back.
fn send_opened<S: Sink>(
    alloc: Global,
    opened: &[Opened],
    text: &mut Vec<u8>,
    out: &mut S,
) -> Result<(), Fault>
    ensures sent { OnOk result (SendsText (S.state out.old).written (S.state out.new).written (text.old.items ++ flat_map (standing_text line.Opened) (all_opened opened.now)) text.new.items) }
    ensures part { OnErr result (AppendsPrefix (S.state out.old).written (S.state out.new).written (text.old.items ++ flat_map (standing_text line.Opened) (all_opened opened.now))) }
    ensures not_read { IsErrOf result Fault.Read → ⊥ }
    ensures later { (S.state out.old).faults ≤ (S.state out.new).faults }
    ensures write { IsErrOf result Fault.Write → Rose (S.state out.old).faults (S.state out.new).faults }
{
    for open in opened {
        let line = finding_line(alloc, LineKind::Opened, &open.finding, open.since)?;
        send_line(&line, text, out)?;
    }
    Ok(())
}

// The same for what closed.
fn send_closed<S: Sink>(
    alloc: Global,
    closed: &[Closed],
    text: &mut Vec<u8>,
    out: &mut S,
) -> Result<(), Fault>
    ensures sent { OnOk result (SendsText (S.state out.old).written (S.state out.new).written (text.old.items ++ flat_map closed_text (all_closed closed.now)) text.new.items) }
    ensures part { OnErr result (AppendsPrefix (S.state out.old).written (S.state out.new).written (text.old.items ++ flat_map closed_text (all_closed closed.now))) }
    ensures not_read { IsErrOf result Fault.Read → ⊥ }
    ensures later { (S.state out.old).faults ≤ (S.state out.new).faults }
    ensures write { IsErrOf result Fault.Write → Rose (S.state out.old).faults (S.state out.new).faults }
{
    for close in closed {
        let line = closed_line(alloc, close.rule, &close.place)?;
        send_line(&line, text, out)?;
    }
    Ok(())
}

// Adds a line to those that are held back. Where these fill a piece, all of them are written.
fn send_line<S: Sink>(line: &[u8], text: &mut Vec<u8>, out: &mut S) -> Result<(), Fault>
    ensures sent { OnOk result (SendsText (S.state out.old).written (S.state out.new).written (text.old.items ++ line.now) text.new.items) }
    ensures part { OnErr result (AppendsPrefix (S.state out.old).written (S.state out.new).written (text.old.items ++ line.now)) }
    ensures not_read { IsErrOf result Fault.Read → ⊥ }
    ensures later { (S.state out.old).faults ≤ (S.state out.new).faults }
    ensures write { IsErrOf result Fault.Write → Rose (S.state out.old).faults (S.state out.new).faults }
{
    text.extend_from_slice(line)?;
    send_piece(text, out)?;
    Ok(())
}

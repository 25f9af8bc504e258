//! All findings that stand, written one after the other.
ghost use Rattle.std.specs.Prelude.{IfOk, IsErrOf};
ghost use Rattle.rt_outside.specs.Causes.{Rose};
ghost use Rattle.rt_outside.specs.Sink.{AppendsPrefix};
ghost use Rattle.run_rows.specs.follow_engine.Engines.{engine_data};
ghost use Rattle.rt_report.specs.FindingLines.{all_text};
ghost use Rattle.run_check.specs.Check.{AreWritten};

use rt_outside::{Sink, put_all};
use rt_report::Lines;
use run_base::{Fault, send_piece};
use run_rows::Engine;
use std::alloc::Global;

/// Writes the lines of all findings that stand with an engine, and answers whether one is of an error. They are held back until
/// they fill a piece, so memory doesn't grow with the findings.
pub fn write_findings<S: Sink>(alloc: Global, engine: &Engine, out: &mut S) -> Result<bool, Fault>
    ensures part { AppendsPrefix (S.state out.old).written (S.state out.new).written (all_text (engine_data engine.now).list) }
    ensures whole { IfOk result (AreWritten (engine_data engine.now).list (S.state out.old).written (S.state out.new).written) }
    ensures not_read { IsErrOf result Fault.Read → ⊥ }
    ensures write { IsErrOf result Fault.Write → Rose (S.state out.old).faults (S.state out.new).faults }
{
    let mut lines = Lines {
        text: Vec::new(alloc),
        error: false,
    };
    for (finding, since) in engine.findings() {
        lines.push_standing(alloc, finding, since)?;
        send_piece(&mut lines.text, out)?;
    }
    put_all(out, &lines.text)?;
    Ok(lines.error)
}

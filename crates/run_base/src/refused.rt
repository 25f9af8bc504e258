//! What is told of a refused input, and of a refused snapshot.
ghost use Rattle.std.specs.Prelude.{◌≡◌, IfOk, IsErrOf, string_bytes};
ghost use Rattle.rt_outside.specs.Causes.{Rose};
ghost use Rattle.rt_outside.specs.Sink.{AppendsPrefix};
ghost use Rattle.run_base.specs.Carried.{IsPut};
ghost use Rattle.run_base.specs.Faults.{IsCarriedOut, refused_text};
ghost use Rattle.run_base.specs.Report.{refused_report};

use crate::fault::Fault;
use crate::status::Status;
use feed_codec::Refusal;
use rt_outside::{Sink, put_all};
use snapshot_lines::refused_line;
use std::alloc::{AllocError, Global};

/// The text of what is wrong with the input of this name.
pub fn refused_text(alloc: Global, name: &str, why: &str) -> Result<String, AllocError>
    ensures { IfOk result (λ text. string_bytes text ≡ refused_text name.now why.now) }
{
    format!(in alloc; "refused: {name}: {why}\n")
}

/// Writes the report on a refused snapshot: its line.
pub fn put_refused<S: Sink>(alloc: Global, refusal: &Refusal, out: &mut S) -> Result<Status, Fault>
    ensures text { AppendsPrefix (S.state out.old).written (S.state out.new).written (refused_report refusal.now).text }
    ensures whole { IfOk result (IsPut (refused_report refusal.now) (S.state out.old).written (S.state out.new).written) }
    ensures carried_out { IfOk result IsCarriedOut }
    ensures not_read { IsErrOf result Fault.Read → ⊥ }
    ensures write { IsErrOf result Fault.Write → Rose (S.state out.old).faults (S.state out.new).faults }
{
    let line = refused_line(alloc, 0, refusal)?;
    put_all(out, &line)?;
    Ok(Status::Found)
}

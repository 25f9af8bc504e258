//! The command `verify`.
ghost use Rattle.std.specs.Prelude.{◌≡◌, ◌<◌, ◌^◌, ◌∷◌, [], IfOk, IsErrOf, Contains, length};
ghost use Rattle.rt_outside.specs.Causes.{Rose};
ghost use Rattle.rt_outside.specs.Sink.{AppendsPrefix};
ghost use Rattle.run_base.specs.Carried.{CarriesOut, IsPut, exactly};
ghost use Rattle.run_base.specs.Faults.{IsCarriedOut, refused_text};
ghost use Rattle.run_base.specs.Inputs.{TellsInput};
ghost use Rattle.run_base.specs.Outside.{outside};
ghost use Rattle.run_verify.specs.Verified.{TellsEnd, judged_report, verify_report};

use crate::lines::push_sum;
use crate::sending::send_verdicts;
use rt_outside::{Files, ReadEnd, Sink, put_all, read_whole};
use run_base::{Fault, InputFault, Status, refused_text, say_fault, say_input_fault};
use std::alloc::{AllocError, Global};

/// The most bytes that a report may have.
const REPORT_LIMIT: usize = 268_435_456;

/// Carries out `verify` on this file: writes the verdicts on the lines of the report that it holds, and their sum.
pub fn verify<F: Files, S: Sink, E: Sink>(
    alloc: Global,
    file: &str,
    files: &mut F,
    out: &mut S,
    err: &mut E,
) -> Status
    ensures { CarriesOut (exactly (verify_report file.now)) (Contains (file.now ∷ []))
        (outside (F.state files.old) (S.state out.old) (E.state err.old))
        (outside (F.state files.new) (S.state out.new) (E.state err.new)) result }
{
    match read_whole(alloc, files, file, REPORT_LIMIT) {
        Ok(report) => match put_verdicts(alloc, &report, out) {
            Ok(status) => status,
            Err(fault) => say_fault(err, fault, file),
        },
        Err(end) => say_input_fault(err, input_fault(alloc, file, end)),
    }
}

// Writes the verdicts on the lines of a report, and their sum.
fn put_verdicts<S: Sink>(alloc: Global, report: &[u8], out: &mut S) -> Result<Status, Fault>
    requires { length report.now < 2 ^ 63 }
    ensures text { AppendsPrefix (S.state out.old).written (S.state out.new).written (judged_report report.now).text }
    ensures whole { IfOk result (IsPut (judged_report report.now) (S.state out.old).written (S.state out.new).written) }
    ensures carried_out { IfOk result IsCarriedOut }
    ensures not_read { IsErrOf result Fault.Read → ⊥ }
    ensures write { IsErrOf result Fault.Write → Rose (S.state out.old).faults (S.state out.new).faults }
{
    let mut text = Vec::new(alloc);
    let counts = send_verdicts(alloc, report, &mut text, out)?;
    push_sum(alloc, counts, &mut text)?;
    put_all(out, &text)?;
    Ok(Status::found(counts.is_bad()))
}

// Why the file of this name wasn't read, as it is told.
fn input_fault<'a>(alloc: Global, file: &'a str, end: ReadEnd) -> InputFault<'a>
    ensures { TellsEnd file.now end result }
{
    match end {
        ReadEnd::Absent => refused(alloc, file, "missing file"),
        ReadEnd::TooLarge => refused(alloc, file, "too large"),
        ReadEnd::ReadFault => InputFault::Read(file),
        ReadEnd::Memory => InputFault::Memory,
    }
}

// That the file of this name is refused, or that no memory was found for the text.
fn refused(alloc: Global, file: &str, why: &str) -> InputFault<'static>
    ensures { TellsInput (λ name. ⊥) (λ text. text ≡ refused_text file.now why.now) result }
{
    match refused_text(alloc, file, why) {
        Ok(text) => InputFault::Refused(text),
        Err(AllocError) => InputFault::Memory,
    }
}

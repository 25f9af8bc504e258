//! The command `show`.
ghost use Rattle.std.specs.Prelude.{◌≡◌, ◌∷◌, [], IfSome, IfOk, IsErrOf, Contains, codes};
ghost use Rattle.std.specs.FinMap.{get};
ghost use Rattle.rt_outside.specs.Causes.{Rose};
ghost use Rattle.rt_outside.specs.Sink.{AppendsPrefix};
ghost use Rattle.rt_outside.specs.Store.{contents_told};
ghost use Rattle.run_base.specs.Report.{file_report, snapshot_report};
ghost use Rattle.run_base.specs.Found.{kept_bytes};
ghost use Rattle.run_json.specs.Reports.{kept_report, shown_report};
ghost use Rattle.run_base.specs.Carried.{CarriesOut, IsPut, exactly};
ghost use Rattle.run_base.specs.Outside.{outside};
ghost use Rattle.run_base.specs.Faults.{IsCarriedOut};

use crate::sending::{send_entities, send_unknown};
use feed_codec::Refusal;
use feed_stream::Kept;
use rt_outside::{Files, Sink, put_all};
use run_base::{Fault, Status, put_refused, read_kept, say_fault};
use std::alloc::{AllocError, Global};

/// Carries out `show`: the form of the snapshot in this file, as a line.
pub fn show<F: Files, S: Sink, E: Sink>(
    alloc: Global,
    file: &str,
    files: &mut F,
    out: &mut S,
    err: &mut E,
) -> Status
    ensures { CarriesOut (exactly (file_report shown_report file.now)) (Contains (file.now ∷ []))
        (outside (F.state files.old) (S.state out.old) (E.state err.old))
        (outside (F.state files.new) (S.state out.new) (E.state err.new)) result }
{
    match write_form(alloc, file, files, out) {
        Ok(status) => status,
        Err(fault) => say_fault(err, fault, file),
    }
}

// Writes the report on the snapshot in a file.
fn write_form<F: Files, S: Sink>(
    alloc: Global,
    file: &str,
    files: &mut F,
    out: &mut S,
) -> Result<Status, Fault>
    ensures text { IfSome (contents_told (F.state files.old).told) (λ held.
        AppendsPrefix (S.state out.old).written (S.state out.new).written (snapshot_report shown_report (get held file.now)).text) }
    ensures whole { IfSome (contents_told (F.state files.old).told) (λ held.
        IfOk result (IsPut (snapshot_report shown_report (get held file.now)) (S.state out.old).written (S.state out.new).written)) }
    ensures carried_out { IfOk result IsCarriedOut }
    ensures asked { IfSome (F.state files.new).asked (λ last. last ≡ file.now) }
    ensures read { IsErrOf result Fault.Read → Rose (F.state files.old).faults (F.state files.new).faults }
    ensures write { IsErrOf result Fault.Write → Rose (S.state out.old).faults (S.state out.new).faults }
{
    let found = read_kept(alloc, files, file, None)?;
    put_found(alloc, found, out)
}

// Writes the report on a snapshot that was accepted or refused.
fn put_found<S: Sink>(
    alloc: Global,
    found: Result<Kept, Refusal>,
    out: &mut S,
) -> Result<Status, Fault>
    ensures text { AppendsPrefix (S.state out.old).written (S.state out.new).written (kept_report (kept_bytes found)).text }
    ensures whole { IfOk result (IsPut (kept_report (kept_bytes found)) (S.state out.old).written (S.state out.new).written) }
    ensures carried_out { IfOk result IsCarriedOut }
    ensures not_read { IsErrOf result Fault.Read → ⊥ }
    ensures write { IsErrOf result Fault.Write → Rose (S.state out.old).faults (S.state out.new).faults }
{
    match found {
        Ok(kept) => put_form(alloc, &kept, out),
        Err(refusal) => put_refused(alloc, &refusal, out),
    }
}

// What stands before all pieces.
fn opening(alloc: Global) -> Result<Vec<u8>, AllocError>
    ensures { IfOk result (λ held. held.items ≡ codes "{") }
{
    let mut held = Vec::new(alloc);
    held.extend_from_slice(b"{")?;
    Ok(held)
}

// Writes the line of a kept snapshot. No more than an entity is held decoded, and no more than its text and a piece.
fn put_form<S: Sink>(alloc: Global, kept: &Kept, out: &mut S) -> Result<Status, Fault>
    ensures text { AppendsPrefix (S.state out.old).written (S.state out.new).written (shown_report kept.now).text }
    ensures whole { IfOk result (IsPut (shown_report kept.now) (S.state out.old).written (S.state out.new).written) }
    ensures carried_out { IfOk result IsCarriedOut }
    ensures not_read { IsErrOf result Fault.Read → ⊥ }
    ensures write { IsErrOf result Fault.Write → Rose (S.state out.old).faults (S.state out.new).faults }
{
    let mut held = opening(alloc)?;
    send_entities(alloc, kept, &mut held, out)?;
    send_unknown(alloc, kept.bytes(), &mut held, out)?;
    held.extend_from_slice(b"\n")?;
    put_all(out, &held)?;
    Ok(Status::Clean)
}

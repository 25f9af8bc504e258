//! The report of `check` on the snapshot in one file.
ghost use Rattle.std.specs.Prelude.{◌≡◌, ◌∷◌, [], IfSome, IfOk, IsErrOf, OnOk, Contains};
ghost use Rattle.std.specs.FinMap.{get};
ghost use Rattle.rt_outside.specs.Causes.{Rose};
ghost use Rattle.rt_outside.specs.Sink.{AppendsPrefix};
ghost use Rattle.rt_outside.specs.Store.{contents_told};
ghost use Rattle.rule_history.specs.Answered.{tables_of};
ghost use Rattle.run_base.specs.Report.{snapshot_report, file_report};
ghost use Rattle.run_base.specs.Counted.{IsCounted, RoseAtMost, RoseBy, counters};
ghost use Rattle.run_snapshot.specs.Counted.{snapshot_work};
ghost use Rattle.run_snapshot.specs.Reports.{accepted_report};
ghost use Rattle.run_base.specs.Carried.{CarriesOut, IsPut, exactly};
ghost use Rattle.run_base.specs.Outside.{outside};
ghost use Rattle.run_base.specs.Faults.{IsCarriedOut};

use crate::report::put_report;
use rt_outside::{Files, Sink, Steps};
use run_base::{Fault, Status, read_kept, say_fault};
use std::alloc::Global;
use std::sync::ledger::Ledger;
use timetable::Timetable;

/// Writes the report on the snapshot in this file, judged with this timetable at this moment, as POSIX time in seconds. `decodes` ticks once for
/// each entity, `tests` for each rule that is judged.
pub fn report_file<F: Files, S: Sink, E: Sink, D: Ledger, T: Ledger>(
    alloc: Global,
    moment: u64,
    timetable: &Timetable,
    file: &str,
    files: &mut F,
    out: &mut S,
    err: &mut E,
    decodes: &mut Steps<D>,
    tests: &mut Steps<T>,
) -> Status
    ensures carried { CarriesOut (exactly (file_report (accepted_report (tables_of timetable.now) moment) file.now)) (Contains (file.now ∷ []))
        (outside (F.state files.old) (S.state out.old) (E.state err.old))
        (outside (F.state files.new) (S.state out.new) (E.state err.new)) result }
    ensures counted { IsCounted (λ held. snapshot_work (get held file.now)) (contents_told (F.state files.old).told)
        (counters decodes.old tests.old) (counters decodes.new tests.new) result }
{
    match write_report(alloc, moment, timetable, file, files, out, decodes, tests) {
        Ok(status) => status,
        Err(fault) => say_fault(err, fault, file),
    }
}

// Writes the report on one file.
fn write_report<F: Files, S: Sink, D: Ledger, T: Ledger>(
    alloc: Global,
    moment: u64,
    timetable: &Timetable,
    file: &str,
    files: &mut F,
    out: &mut S,
    decodes: &mut Steps<D>,
    tests: &mut Steps<T>,
) -> Result<Status, Fault>
    ensures text { IfSome (contents_told (F.state files.old).told) (λ held.
        AppendsPrefix (S.state out.old).written (S.state out.new).written
        (snapshot_report (accepted_report (tables_of timetable.now) moment) (get held file.now)).text) }
    ensures whole { IfSome (contents_told (F.state files.old).told) (λ held. IfOk result (λ status.
        IsPut (snapshot_report (accepted_report (tables_of timetable.now) moment) (get held file.now)) (S.state out.old).written (S.state out.new).written status)) }
    ensures carried_out { IfOk result IsCarriedOut }
    ensures asked { IfSome (F.state files.new).asked (λ last. last ≡ file.now) }
    ensures read { IsErrOf result Fault.Read → Rose (F.state files.old).faults (F.state files.new).faults }
    ensures write { IsErrOf result Fault.Write → Rose (S.state out.old).faults (S.state out.new).faults }
    ensures counted { IfSome (contents_told (F.state files.old).told) (λ held.
        OnOk result (RoseBy (snapshot_work (get held file.now)) (counters decodes.old tests.old) (counters decodes.new tests.new))) }
    ensures most { IfSome (contents_told (F.state files.old).told) (λ held.
        RoseAtMost (snapshot_work (get held file.now)) (counters decodes.old tests.old) (counters decodes.new tests.new)) }
{
    let found = read_kept(alloc, files, file, None)?;
    put_report(alloc, moment, timetable, found, out, decodes, tests)
}

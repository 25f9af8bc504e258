//! Several files, each the snapshot of a feed of its own.
ghost use Rattle.std.specs.Prelude.{◌≡◌, ◌≤◌, Contains, IfSome, IfOk, IfErr, List, OnOk, length};
ghost use Rattle.rt_outside.specs.Store.{contents_told};
ghost use Rattle.rule_history.specs.Answered.{tables_of};
ghost use Rattle.rule_history.specs.History.{Snapshot};
ghost use Rattle.run_base.specs.Carried.{CarriesOut, exactly};
ghost use Rattle.run_base.specs.Counted.{RoseAtMost, RoseBy, counters};
ghost use Rattle.run_base.specs.Faults.{IsCarriedOut};
ghost use Rattle.run_base.specs.Outside.{outside};
ghost use Rattle.run_rows.specs.Counted.{files_work, outcome_work};
ghost use Rattle.run_rows.specs.Files.{Ending, IsCutOff, ended, file_rows, files_outcome};
ghost use Rattle.run_rows.specs.Followed.{IsDone};
ghost use Rattle.run_rows.specs.Rows.{AreWithinLimits, all_rows, paths_of};
ghost use Rattle.run_rows.specs.declared.telling.Telling.TheVariants.{Counts};

use crate::rows::{RowsEnd, follow_rows, say_row_fault};
use crate::telling::Telling;
use feed_list::SnapshotRow;
use feed_values::{Items, Text};
use rt_outside::{Files, Sink, Steps};
use run_base::{Status, say_memory};
use std::alloc::{AllocError, Global};
use std::sync::ledger::Ledger;
use timetable::Timetable;

// Files as rows: a feed for each, from 0, and one moment for all.
fn file_rows(
    alloc: Global,
    moment: u64,
    names: &Items<Text>,
) -> Result<Items<SnapshotRow>, AllocError>
    requires { length names.now ≤ 16 }
    ensures { IfOk result (λ rows. rows ≡ file_rows 0 moment names.now) }
{
    let mut rows = Items::new(alloc);
    for (index, name) in names.as_slice().iter().enumerate() {
        let path = name.clone(alloc)?;
        let feed = index as u8;
        rows.push(SnapshotRow { feed, moment, path })?;
    }
    Ok(rows)
}

/// Takes the snapshots of files, each of a feed of its own, at one moment, as POSIX time in seconds, and writes a line on each. It
/// answers the engine after them; or what a fault that it told comes to, and nothing is to be written then.
pub fn take_files<F: Files, S: Sink, E: Sink, D: Ledger, T: Ledger>(
    alloc: Global,
    moment: u64,
    table: Timetable,
    names: &Items<Text>,
    files: &mut F,
    out: &mut S,
    err: &mut E,
    decodes: &mut Steps<D>,
    tests: &mut Steps<T>,
) -> Result<RowsEnd, Status>
    requires { length names.now ≤ 16 }
    ensures whole { IfSome (contents_told (F.state files.old).told) (λ held. IfOk result (λ end.
        IsDone (tables_of table) end.engine end.error (S.state out.old).written (S.state out.new).written (files_outcome (tables_of table) moment names.now held))) }
    ensures counted { IfSome (contents_told (F.state files.old).told) (λ held.
        OnOk result (RoseBy (files_work (tables_of table) moment names.now held) (counters decodes.old tests.old) (counters decodes.new tests.new))) }
    ensures most { IfSome (contents_told (F.state files.old).told) (λ held.
        RoseAtMost (files_work (tables_of table) moment names.now held) (counters decodes.old tests.old) (counters decodes.new tests.new)) }
    ensures later { (S.state out.old).faults ≤ (S.state out.new).faults }
    ensures silent { OnOk result (E.state err.new ≡ E.state err.old) }
    ensures undone { IfErr result (λ status. IsCarriedOut status → ⊥) }
    ensures cut_off { IfErr result (IsCutOff (tables_of table) moment names.now
        (outside (F.state files.old) (S.state out.old) (E.state err.old))
        (outside (F.state files.new) (S.state out.new) (E.state err.new))) }
{
    match file_rows(alloc, moment, names) {
        Ok(rows) => take_rows(
            alloc,
            table,
            rows.as_slice(),
            files,
            out,
            err,
            decodes,
            tests,
        ),
        Err(_) => Err(say_memory(err)),
    }
}

// Takes the snapshots of rows.
fn take_rows<F: Files, S: Sink, E: Sink, D: Ledger, T: Ledger>(
    alloc: Global,
    table: Timetable,
    rows: &[SnapshotRow],
    files: &mut F,
    out: &mut S,
    err: &mut E,
    decodes: &mut Steps<D>,
    tests: &mut Steps<T>,
) -> Result<RowsEnd, Status>
    requires { AreWithinLimits rows.now }
    ensures whole { IfSome (contents_told (F.state files.old).told) (λ held. IfOk result (λ end.
        IsDone (tables_of table) end.engine end.error (S.state out.old).written (S.state out.new).written (all_rows Counts (tables_of table) held rows.now))) }
    ensures counted { IfSome (contents_told (F.state files.old).told) (λ held.
        OnOk result (RoseBy (outcome_work (tables_of table) (all_rows Counts (tables_of table) held rows.now)) (counters decodes.old tests.old) (counters decodes.new tests.new))) }
    ensures most { IfSome (contents_told (F.state files.old).told) (λ held.
        RoseAtMost (outcome_work (tables_of table) (all_rows Counts (tables_of table) held rows.now)) (counters decodes.old tests.old) (counters decodes.new tests.new)) }
    ensures later { (S.state out.old).faults ≤ (S.state out.new).faults }
    ensures silent { OnOk result (E.state err.new ≡ E.state err.old) }
    ensures undone { IfErr result (λ status. IsCarriedOut status → ⊥) }
    ensures cut_off { IfErr result (λ status. (ending : List Snapshot → Ending) →
        CarriesOut (exactly (λ held. ended ending (all_rows Counts (tables_of table) held rows.now))) (Contains (paths_of rows.now))
        (outside (F.state files.old) (S.state out.old) (E.state err.old))
        (outside (F.state files.new) (S.state out.new) (E.state err.new)) status) }
{
    match follow_rows(
        alloc,
        Telling::Counts,
        table,
        rows,
        files,
        out,
        decodes,
        tests,
    ) {
        Ok(end) => Ok(end),
        Err(fault) => Err(say_row_fault(err, fault, rows)),
    }
}

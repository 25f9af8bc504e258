//! `check` of several files, each the snapshot of a feed of its own.
ghost use Rattle.std.specs.Prelude.{◌≤◌, Contains, length};
ghost use Rattle.rt_outside.specs.Store.{contents_told};
ghost use Rattle.run_rows.specs.follow_engine.Engines.{engine_data};
ghost use Rattle.rule_history.specs.Answered.{tables_of};
ghost use Rattle.run_base.specs.Carried.{CarriesOut, exactly};
ghost use Rattle.run_base.specs.Counted.{IsCounted, counters};
ghost use Rattle.run_base.specs.Outside.{outside};
ghost use Rattle.run_check.specs.Check.{files_report, findings_ending};
ghost use Rattle.run_rows.specs.Counted.{files_work};
ghost use Rattle.run_rows.specs.Files.{EndsWith};
ghost use Rattle.run_words.specs.Words.{file_limit};

use crate::standing::write_findings;
use feed_values::{Items, Text};
use rt_outside::{Files, Sink, Steps};
use run_base::{Status, say_fault};
use run_rows::{RowsEnd, either, take_files};
use std::alloc::Global;
use std::sync::ledger::Ledger;
use timetable::Timetable;

/// Carries out `check` on these files with a timetable: a line for each file, and behind them all findings.
pub fn check_feeds<F: Files, S: Sink, E: Sink, D: Ledger, T: Ledger>(
    alloc: Global,
    moment: u64,
    timetable: Timetable,
    names: &Items<Text>,
    files: &mut F,
    out: &mut S,
    err: &mut E,
    decodes: &mut Steps<D>,
    tests: &mut Steps<T>,
) -> Status
    requires { length names.now ≤ file_limit }
    ensures carried { CarriesOut (exactly (files_report (tables_of timetable) moment names.now)) (Contains names.now)
        (outside (F.state files.old) (S.state out.old) (E.state err.old))
        (outside (F.state files.new) (S.state out.new) (E.state err.new)) result }
    ensures counted { IsCounted (files_work (tables_of timetable) moment names.now) (contents_told (F.state files.old).told) (counters decodes.old tests.old) (counters decodes.new tests.new) result }
{
    match take_files(
        alloc, moment, timetable, names, files, out, err, decodes, tests,
    ) {
        Ok(end) => end_with_findings(alloc, &end, out, err),
        Err(told) => told,
    }
}

// Behind the lines of all files, writes all findings that stand then.
fn end_with_findings<S: Sink, E: Sink>(
    alloc: Global,
    end: &RowsEnd,
    out: &mut S,
    err: &mut E,
) -> Status
    ensures { EndsWith (findings_ending (engine_data end.now.engine).list) end.now.error (S.state out.old) (S.state out.new) (E.state err.old) (E.state err.new) result }
{
    match write_findings(alloc, &end.engine, out) {
        Ok(error) => Status::found(either(end.error, error)),
        Err(fault) => say_fault(err, fault, ""),
    }
}

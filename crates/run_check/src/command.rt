//! The command `check`.
ghost use Rattle.std.specs.Prelude.{◌≡◌, ◌≤◌, Contains, length, option_copied};
ghost use Rattle.rt_outside.specs.Store.{contents_told};
ghost use Rattle.rule_history.specs.Answered.{tables_of};
ghost use Rattle.run_words.specs.Words.{file_limit};
ghost use Rattle.run_base.specs.Carried.{CarriesOut, exactly};
ghost use Rattle.run_base.specs.Counted.{IsCounted, counters};
ghost use Rattle.run_base.specs.Outside.{outside};
ghost use Rattle.run_rows.specs.Counted.{files_work};
ghost use Rattle.run_check.specs.Check.{IsInput, check_report, check_work, files_report};

use crate::feeds::check_feeds;
use feed_values::{Items, Text};
use rt_outside::{Files, Sink, Steps};
use run_base::{Status, say_input_fault};
use run_snapshot::report_file;
use run_timetable::load_given;
use std::alloc::Global;
use std::sync::ledger::Ledger;
use timetable::Timetable;

/// Carries out `check` on the files of these names, each the snapshot of a feed, at this moment, as POSIX time in seconds.
///
/// Where a folder is given, its timetable is read first; one that is refused ends the run. Where none is given, the rules
/// against the timetable find nothing.
pub fn check<F: Files, S: Sink, E: Sink, D: Ledger, T: Ledger>(
    alloc: Global,
    moment: u64,
    folder: Option<&Text>,
    names: &Items<Text>,
    files: &mut F,
    out: &mut S,
    err: &mut E,
    decodes: &mut Steps<D>,
    tests: &mut Steps<T>,
) -> Status
    requires { length names.now ≤ file_limit }
    ensures carried { CarriesOut (exactly (check_report (option_copied folder.entry) moment names.now))
        (IsInput (option_copied folder.entry) names.now)
        (outside (F.state files.old) (S.state out.old) (E.state err.old))
        (outside (F.state files.new) (S.state out.new) (E.state err.new)) result }
    ensures counted { IsCounted (check_work (option_copied folder.entry) moment names.now) (contents_told (F.state files.old).told) (counters decodes.old tests.old) (counters decodes.new tests.new) result }
{
    match load_given(alloc, files, folder) {
        Ok(timetable) => check_files(
            alloc, moment, timetable, names, files, out, err, decodes, tests,
        ),
        Err(fault) => say_input_fault(err, fault),
    }
}

// Carries out `check` on these files with a timetable.
fn check_files<F: Files, S: Sink, E: Sink, D: Ledger, T: Ledger>(
    alloc: Global,
    moment: u64,
    timetable: Timetable,
    names: &Items<Text>,
    files: &mut F,
    out: &mut S,
    err: &mut E,
    decodes: &mut Steps<D>,
    tests: &mut Steps<T>,
) -> Status
    requires { length names.now ≤ file_limit }
    ensures carried { CarriesOut (exactly (files_report (tables_of timetable) moment names.now)) (Contains names.now)
        (outside (F.state files.old) (S.state out.old) (E.state err.old))
        (outside (F.state files.new) (S.state out.new) (E.state err.new)) result }
    ensures counted { IsCounted (files_work (tables_of timetable) moment names.now) (contents_told (F.state files.old).told) (counters decodes.old tests.old) (counters decodes.new tests.new) result }
{
    if names.as_slice().len() == 1 {
        check_first(
            alloc, moment, &timetable, names, files, out, err, decodes, tests,
        )
    } else {
        check_feeds(
            alloc, moment, timetable, names, files, out, err, decodes, tests,
        )
    }
}

// Carries out `check` on the one file that `names` has, with this timetable. It is judged without an engine, which would hold all
// of its findings: the report is the same.
fn check_first<F: Files, S: Sink, E: Sink, D: Ledger, T: Ledger>(
    alloc: Global,
    moment: u64,
    timetable: &Timetable,
    names: &Items<Text>,
    files: &mut F,
    out: &mut S,
    err: &mut E,
    decodes: &mut Steps<D>,
    tests: &mut Steps<T>,
) -> Status
    requires { length names.now ≡ 1 }
    ensures carried { CarriesOut (exactly (files_report (tables_of timetable.now) moment names.now)) (Contains names.now)
        (outside (F.state files.old) (S.state out.old) (E.state err.old))
        (outside (F.state files.new) (S.state out.new) (E.state err.new)) result }
    ensures counted { IsCounted (files_work (tables_of timetable.now) moment names.now) (contents_told (F.state files.old).told) (counters decodes.old tests.old) (counters decodes.new tests.new) result }
{
    report_file(
        alloc,
        moment,
        timetable,
        names.as_slice()[0].as_str(),
        files,
        out,
        err,
        decodes,
        tests,
    )
}

//! The command `follow`.
ghost use Rattle.std.specs.Prelude.{None, option_copied};
ghost use Rattle.rt_outside.specs.Store.{contents_told};
ghost use Rattle.feed_list.specs.Lists.{IsWithinLimits};
ghost use Rattle.rule_history.specs.Answered.{tables_of};
ghost use Rattle.run_base.specs.Carried.{CarriesOut, exactly};
ghost use Rattle.run_base.specs.Counted.{IsCounted, counters};
ghost use Rattle.run_base.specs.Outside.{outside};
ghost use Rattle.run_list.specs.Listed.{list_outcome};
ghost use Rattle.run_list.specs.Stops.{IsReadByRows};
ghost use Rattle.run_follow.specs.Follow.{IsFollowed, follow_report, follow_work, followed, list_report, list_work};

use crate::list_fault::told_as;
use feed_list::{ListRow, read_list};
use feed_values::Text;
use rt_outside::{Files, Sink, Steps};
use run_base::{Status, say_input_fault};
use run_list::{follow_rows, say_stop};
use run_timetable::load_given;
use std::alloc::Global;
use std::sync::ledger::Ledger;
use timetable::Timetable;

/// Carries out `follow` on the list in this file: writes what each of its snapshots and timetables opens and closes.
///
/// Where a folder is given, its timetable is read first; one that is refused ends the run. Where none is given, the rules
/// against the timetable find nothing until one comes in the list. The list is read whole before its first row is taken.
pub fn follow<F: Files, S: Sink, E: Sink, D: Ledger, T: Ledger>(
    alloc: Global,
    folder: Option<&Text>,
    list: &str,
    files: &mut F,
    out: &mut S,
    err: &mut E,
    decodes: &mut Steps<D>,
    tests: &mut Steps<T>,
) -> Status
    ensures carried { CarriesOut (exactly (follow_report (option_copied folder.entry) list.now))
        (IsFollowed (contents_told (F.state files.old).told) (option_copied folder.entry) list.now)
        (outside (F.state files.old) (S.state out.old) (E.state err.old))
        (outside (F.state files.new) (S.state out.new) (E.state err.new)) result }
    ensures counted { IsCounted (follow_work (option_copied folder.entry) list.now) (contents_told (F.state files.old).told) (counters decodes.old tests.old) (counters decodes.new tests.new) result }
{
    match load_given(alloc, files, folder) {
        Ok(timetable) => follow_list(alloc, timetable, list, files, out, err, decodes, tests),
        Err(fault) => say_input_fault(err, fault),
    }
}

// Follows the list in this file with a timetable.
fn follow_list<F: Files, S: Sink, E: Sink, D: Ledger, T: Ledger>(
    alloc: Global,
    timetable: Timetable,
    list: &str,
    files: &mut F,
    out: &mut S,
    err: &mut E,
    decodes: &mut Steps<D>,
    tests: &mut Steps<T>,
) -> Status
    ensures carried { CarriesOut (exactly (list_report list.now (tables_of timetable)))
        (IsFollowed (contents_told (F.state files.old).told) None list.now)
        (outside (F.state files.old) (S.state out.old) (E.state err.old))
        (outside (F.state files.new) (S.state out.new) (E.state err.new)) result }
    ensures counted { IsCounted (list_work list.now (tables_of timetable)) (contents_told (F.state files.old).told) (counters decodes.old tests.old) (counters decodes.new tests.new) result }
{
    match read_list(alloc, files, list) {
        Ok(rows) => follow_listed(
            alloc,
            timetable,
            rows.as_slice(),
            files,
            out,
            err,
            decodes,
            tests,
        ),
        Err(fault) => say_input_fault(err, told_as(alloc, list, fault)),
    }
}

// Follows these rows with a timetable.
fn follow_listed<F: Files, S: Sink, E: Sink, D: Ledger, T: Ledger>(
    alloc: Global,
    timetable: Timetable,
    rows: &[ListRow],
    files: &mut F,
    out: &mut S,
    err: &mut E,
    decodes: &mut Steps<D>,
    tests: &mut Steps<T>,
) -> Status
    requires { IsWithinLimits rows.now }
    ensures carried { CarriesOut (exactly (λ held. followed (list_outcome (tables_of timetable) held rows.now))) (IsReadByRows rows.now)
        (outside (F.state files.old) (S.state out.old) (E.state err.old))
        (outside (F.state files.new) (S.state out.new) (E.state err.new)) result }
    ensures counted { IsCounted (λ held. (list_outcome (tables_of timetable) held rows.now).work) (contents_told (F.state files.old).told) (counters decodes.old tests.old) (counters decodes.new tests.new) result }
{
    match follow_rows(alloc, timetable, rows, files, out, decodes, tests) {
        Ok(error) => Status::found(error),
        Err(stop) => say_stop(err, stop),
    }
}

//! The command `trial`.
ghost use Rattle.std.specs.Prelude.{List, Option, ℕ};
ghost use Rattle.rt_outside.specs.Store.{Contents, FilesState};
ghost use Rattle.rule_history.specs.Answered.{tables_of};
ghost use Rattle.run_base.specs.Carried.{CarriesOut, exactly};
ghost use Rattle.run_base.specs.Counted.{IsCounted, counters};
ghost use Rattle.run_rows.specs.Counted.{history_work};
ghost use Rattle.trial_feed.specs.Snapshots.{trial_snapshots};
ghost use Rattle.run_base.specs.Outside.{outside};
ghost use Rattle.run_trial.specs.Tried.{IsTrialFile, history_report, trial_report, trial_work};

use crate::summing::sum_up;
use rt_outside::{Sink, Steps, put_all};
use run_base::{Fault, Status, say_fault, say_input_fault, say_memory};
use run_timetable::load_fault;
use std::alloc::Global;
use std::sync::ledger::Ledger;
use timetable::Timetable;
use trial_feed::{FOLDER, timetable_files};

/// Carries out `trial`: makes a timetable and the snapshots of two feeds from a number, follows them, and writes one line that
/// sums up. It asks for no file: its timetable lies in memory.
pub fn trial<S: Sink, E: Sink, D: Ledger, T: Ledger>(
    alloc: Global,
    seed: u64,
    out: &mut S,
    err: &mut E,
    decodes: &mut Steps<D>,
    tests: &mut Steps<T>,
) -> Status
    ensures carried { (files : FilesState) → CarriesOut (exactly (λ held. trial_report seed)) IsTrialFile
        (outside files (S.state out.old) (E.state err.old))
        (outside files (S.state out.new) (E.state err.new)) result }
    ensures counted { (told : Option Contents) → IsCounted (λ held. trial_work seed) told (counters decodes.old tests.old) (counters decodes.new tests.new) result }
{
    let Ok(mut files) = timetable_files(alloc) else {
        return say_memory(err);
    };
    match Timetable::load(alloc, &mut files, FOLDER) {
        Ok(timetable) => write_sum(alloc, timetable, seed, out, err, decodes, tests),
        Err(fault) => say_input_fault(err, load_fault(alloc, FOLDER, fault)),
    }
}

// Carries out `trial` with this timetable.
fn write_sum<S: Sink, E: Sink, D: Ledger, T: Ledger>(
    alloc: Global,
    timetable: Timetable,
    seed: u64,
    out: &mut S,
    err: &mut E,
    decodes: &mut Steps<D>,
    tests: &mut Steps<T>,
) -> Status
    ensures carried { (files : FilesState) → CarriesOut (exactly (λ held. history_report (tables_of timetable) (trial_snapshots seed))) IsTrialFile
        (outside files (S.state out.old) (E.state err.old))
        (outside files (S.state out.new) (E.state err.new)) result }
    ensures counted { (told : Option Contents) → IsCounted (λ held. history_work (tables_of timetable) (trial_snapshots seed)) told (counters decodes.old tests.old) (counters decodes.new tests.new) result }
{
    let Ok(text) = sum_up(alloc, timetable, seed, decodes, tests) else {
        return say_memory(err);
    };
    match put_all(out, &text) {
        Ok(()) => Status::Clean,
        Err(failed) => say_fault(err, Fault::from(failed), ""),
    }
}

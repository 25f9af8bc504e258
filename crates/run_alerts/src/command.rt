//! The command `alerts`.
ghost use Rattle.std.specs.Prelude.{◌≡◌, ◌≤◌, Contains, IsErrOf, List, OnOk, Option, length};
ghost use Rattle.std.specs.Io.KnownBytes.{append_known};
ghost use Rattle.rt_outside.specs.Causes.{Rose};
ghost use Rattle.rt_outside.specs.Sink.{AppendsPrefix};
ghost use Rattle.rt_outside.specs.Store.{contents_told};
ghost use Rattle.timetable.specs.Timetables.{Tables};
ghost use Rattle.rule_history.specs.History.{Snapshot};
ghost use Rattle.engine_laws.specs.Standings.{Matches};
ghost use Rattle.run_rows.specs.follow_engine.Engines.{engine_data};
ghost use Rattle.run_rows.specs.follow_engine.Entities.{entities_after, entities_held};
ghost use Rattle.run_base.specs.Carried.{CarriesOut, exactly};
ghost use Rattle.run_base.specs.Counted.{IsCounted, counters};
ghost use Rattle.run_base.specs.Outside.{outside};
ghost use Rattle.run_rows.specs.Files.{EndsWith};
ghost use Rattle.run_words.specs.Words.{file_limit};
ghost use Rattle.run_alerts.specs.Alerts.{alerts_ending, alerts_report, alerts_text, alerts_work};

use crate::in_force::alerts_text;
use alert_view::Query;
use feed_values::{Items, Text};
use rt_outside::{Files, Sink, Steps, put_all};
use run_base::{Fault, Status, say_fault};
use run_rows::{Engine, RowsEnd, take_files};
use std::alloc::Global;
use std::sync::ledger::Ledger;
use timetable::Timetable;

/// Carries out `alerts` on the files of these names, each the snapshot of a feed, at this moment, as POSIX time in seconds: writes a line
/// on each snapshot, and behind them one on each alert that is in force for whom is asked for, and one that sums up.
///
/// Findings are neither written nor part of the answer.
pub fn alerts<F: Files, S: Sink, E: Sink, D: Ledger, T: Ledger>(
    alloc: Global,
    moment: u64,
    query: &Query,
    names: &Items<Text>,
    files: &mut F,
    out: &mut S,
    err: &mut E,
    decodes: &mut Steps<D>,
    tests: &mut Steps<T>,
) -> Status
    requires { length names.now ≤ file_limit }
    ensures carried { CarriesOut (exactly (alerts_report moment query.now names.now)) (Contains names.now)
        (outside (F.state files.old) (S.state out.old) (E.state err.old))
        (outside (F.state files.new) (S.state out.new) (E.state err.new)) result }
    ensures counted { IsCounted (alerts_work moment names.now) (contents_told (F.state files.old).told) (counters decodes.old tests.old) (counters decodes.new tests.new) result }
{
    let table = Timetable::absent(alloc);
    match take_files(alloc, moment, table, names, files, out, err, decodes, tests) {
        Ok(end) => end_with_alerts(alloc, moment, query, &end, out, err),
        Err(told) => told,
    }
}

// Behind the lines of all files, writes those of the alerts that are in force.
fn end_with_alerts<S: Sink, E: Sink>(
    alloc: Global,
    moment: u64,
    query: &Query,
    end: &RowsEnd,
    out: &mut S,
    err: &mut E,
) -> Status
    ensures ends { EndsWith (alerts_ending moment query.now (entities_held end.now.engine.feeds)) end.now.error (S.state out.old) (S.state out.new) (E.state err.old) (E.state err.new) result }
    ensures after { (t : Option Tables) (h : List Snapshot) → Matches (engine_data end.now.engine) t h → entities_held end.now.engine.feeds ≡ entities_after h }
{
    match put_alerts(alloc, moment, query, &end.engine, out) {
        Ok(()) => Status::found(end.error),
        Err(fault) => say_fault(err, fault, ""),
    }
}

// Writes the lines of the alerts that are in force.
fn put_alerts<S: Sink>(
    alloc: Global,
    moment: u64,
    query: &Query,
    engine: &Engine,
    out: &mut S,
) -> Result<(), Fault>
    ensures part { AppendsPrefix (S.state out.old).written (S.state out.new).written (alerts_text moment query.now (entities_held engine.now.feeds)) }
    ensures whole { OnOk result ((S.state out.new).written ≡ append_known (S.state out.old).written (alerts_text moment query.now (entities_held engine.now.feeds))) }
    ensures not_read { IsErrOf result Fault.Read → ⊥ }
    ensures write { IsErrOf result Fault.Write → Rose (S.state out.old).faults (S.state out.new).faults }
    ensures after { (t : Option Tables) (h : List Snapshot) → Matches (engine_data engine.now) t h → entities_held engine.now.feeds ≡ entities_after h }
{
    let text = alerts_text(alloc, moment, query, engine)?;
    Ok(put_all(out, &text)?)
}

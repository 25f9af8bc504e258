//! The rows of a list, one after the other.
ghost use Rattle.std.specs.Prelude.{◌≡◌, ◌≤◌, IfSome, IfOk, IfErr, OnOk};
ghost use Rattle.std.specs.Io.KnownBytes.{append_known};
ghost use Rattle.rt_outside.specs.Causes.{Rose};
ghost use Rattle.rt_outside.specs.Sink.{AppendsPrefix};
ghost use Rattle.rt_outside.specs.Store.{contents_told};
ghost use Rattle.feed_list.specs.Lists.{IsWithinLimits};
ghost use Rattle.rule_history.specs.Answered.{tables_of};
ghost use Rattle.run_base.specs.Counted.{RoseAtMost, RoseBy, counters};
ghost use Rattle.run_list.specs.Listed.{list_outcome};
ghost use Rattle.run_list.specs.Stops.{IsReadByRows, IsStop};
ghost use Rattle.run_list.specs.Taken.{IsDone};

use crate::row::take_listed;
use crate::stop::{Stop, put_stop};
use feed_list::ListRow;
use rt_outside::{Files, Sink, Steps};
use run_rows::{Engine, RowEnd, either, put_lines};
use std::alloc::Global;
use std::sync::ledger::Ledger;
use timetable::Timetable;

/// Follows the rows of a list, beginning with a timetable: takes each after those before it, and writes its lines as soon as they are known. It answers
/// whether a snapshot or a timetable was refused or an error was told.
pub fn follow_rows<'a, F: Files, S: Sink, D: Ledger, T: Ledger>(
    alloc: Global,
    table: Timetable,
    rows: &'a [ListRow],
    files: &mut F,
    out: &mut S,
    decodes: &mut Steps<D>,
    tests: &mut Steps<T>,
) -> Result<bool, Stop<'a>>
    requires { IsWithinLimits rows.now }
    ensures text { IfSome (contents_told (F.state files.old).told) (λ held.
        AppendsPrefix (S.state out.old).written (S.state out.new).written (list_outcome (tables_of table) held rows.now).text) }
    ensures whole { IfSome (contents_told (F.state files.old).told) (λ held. IfOk result (λ error.
        (error ≡ (list_outcome (tables_of table) held rows.now).error) × ((S.state out.new).written ≡ append_known (S.state out.old).written (list_outcome (tables_of table) held rows.now).text))) }
    ensures counted { IfSome (contents_told (F.state files.old).told) (λ held.
        OnOk result (RoseBy (list_outcome (tables_of table) held rows.now).work (counters decodes.old tests.old) (counters decodes.new tests.new))) }
    ensures most { IfSome (contents_told (F.state files.old).told) (λ held.
        RoseAtMost (list_outcome (tables_of table) held rows.now).work (counters decodes.old tests.old) (counters decodes.new tests.new)) }
    ensures later { (S.state out.old).faults ≤ (S.state out.new).faults }
    ensures stop { IfErr result (IsStop (IsReadByRows rows.now) (F.state files.new).asked
        (Rose (F.state files.old).faults (F.state files.new).faults) (Rose (S.state out.old).faults (S.state out.new).faults)) }
{
    let mut engine = Engine::new(alloc, table);
    let mut error = false;
    for (index, row) in rows.iter().enumerate() {
        let number = index as u64;
        let end = take_listed(alloc, engine, number, row, files, decodes, tests)?;
        let RowEnd {
            engine: after,
            lines,
        } = end;
        let told_error = lines.error;
        match put_lines(alloc, lines, out) {
            Ok(()) => {}
            Err(fault) => return Err(put_stop(fault)),
        }
        engine = after;
        error = either(error, told_error);
    }
    Ok(error)
}

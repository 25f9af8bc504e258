//! Snapshots that are taken one after the other.
ghost use Rattle.std.specs.Prelude.{◌≡◌, ◌<◌, ◌≤◌, ◌||◌, Some, IfSome, IfOk, IfErr, OnOk, length, slice_get};
ghost use Rattle.rt_outside.specs.Causes.{Rose};
ghost use Rattle.rt_outside.specs.Sink.{AppendsPrefix};
ghost use Rattle.rt_outside.specs.Store.{contents_told};
ghost use Rattle.rule_history.specs.Answered.{tables_of};
ghost use Rattle.run_base.specs.Counted.{RoseAtMost, RoseBy, counters};
ghost use Rattle.run_base.specs.Faults.{SaysFault};
ghost use Rattle.run_rows.specs.Counted.{outcome_work};
ghost use Rattle.run_rows.specs.Followed.{IsDone, IsRowFault};
ghost use Rattle.run_rows.specs.Rows.{AreWithinLimits, all_rows};

use crate::row::{RowEnd, take_row};
use crate::sending::put_lines;
use crate::telling::Telling;
use feed_list::SnapshotRow;
use follow_engine::Engine;
use rt_outside::{Files, Sink, Steps};
use run_base::{Fault, Status, say_fault};
use std::alloc::Global;
use std::sync::ledger::Ledger;
use timetable::Timetable;

/// Why rows aren't followed to their end, and the row, from 0, at which that came.
#[derive(Clone, Copy, Debug)]
pub struct RowFault {
    pub row: usize,
    pub fault: Fault,
}

/// The engine after all rows, and whether a snapshot was refused or an error was told.
#[derive(Drop)]
pub struct RowsEnd {
    pub engine: Engine,
    pub error: bool,
}

/// Takes the snapshots of rows one after the other, each after those before it, and writes the lines on each as soon as they
/// are known.
pub fn follow_rows<F: Files, S: Sink, D: Ledger, T: Ledger>(
    alloc: Global,
    telling: Telling,
    table: Timetable,
    rows: &[SnapshotRow],
    files: &mut F,
    out: &mut S,
    decodes: &mut Steps<D>,
    tests: &mut Steps<T>,
) -> Result<RowsEnd, RowFault>
    requires { AreWithinLimits rows.now }
    ensures text { IfSome (contents_told (F.state files.old).told) (λ held.
        AppendsPrefix (S.state out.old).written (S.state out.new).written (all_rows telling (tables_of table) held rows.now).text) }
    ensures whole { IfSome (contents_told (F.state files.old).told) (λ held. IfOk result (λ end.
        IsDone (tables_of table) end.engine end.error (S.state out.old).written (S.state out.new).written (all_rows telling (tables_of table) held rows.now))) }
    ensures counted { IfSome (contents_told (F.state files.old).told) (λ held.
        OnOk result (RoseBy (outcome_work (tables_of table) (all_rows telling (tables_of table) held rows.now)) (counters decodes.old tests.old) (counters decodes.new tests.new))) }
    ensures most { IfSome (contents_told (F.state files.old).told) (λ held.
        RoseAtMost (outcome_work (tables_of table) (all_rows telling (tables_of table) held rows.now)) (counters decodes.old tests.old) (counters decodes.new tests.new)) }
    ensures later { (S.state out.old).faults ≤ (S.state out.new).faults }
    ensures faults { IfErr result (IsRowFault rows.now (F.state files.new).asked
        (Rose (F.state files.old).faults (F.state files.new).faults) (Rose (S.state out.old).faults (S.state out.new).faults)) }
{
    let mut engine = Engine::new(alloc, table);
    let mut error = false;
    for (index, row) in rows.iter().enumerate() {
        let number = index as u64;
        let end = match take_row(alloc, telling, engine, number, row, files, decodes, tests) {
            Ok(end) => end,
            Err(fault) => return Err(RowFault { row: index, fault }),
        };
        let RowEnd {
            engine: after,
            lines,
        } = end;
        let told_error = lines.error;
        match put_lines(alloc, lines, out) {
            Ok(()) => {}
            Err(fault) => return Err(RowFault { row: index, fault }),
        }
        engine = after;
        error = either(error, told_error);
    }
    Ok(RowsEnd { engine, error })
}

/// Tells a fault at one of these rows, and answers it. A read fault is that of the row's file.
pub fn say_row_fault<E: Sink>(err: &mut E, fault: RowFault, rows: &[SnapshotRow]) -> Status
    requires { fault.row < length rows.now }
    ensures { (row : SnapshotRow) → slice_get rows.now fault.row ≡ Some row → SaysFault fault.fault row.path (E.state err.old) (E.state err.new) result }
{
    say_fault(err, fault.fault, rows[fault.row].path.as_str())
}

/// Whether one of two is so. It has a name so that a check has its clause at hand.
pub fn either(a: bool, b: bool) -> bool
    ensures { result ≡ (a || b) }
{
    a || b
}

//! One row of a list.
ghost use Rattle.std.specs.Prelude.{◌≡◌, ◌<◌, ◌≤◌, IfSome, IfOk, IfErr, OnOk};
ghost use Rattle.rt_outside.specs.Causes.{Rose};
ghost use Rattle.rt_outside.specs.Store.{contents_told};
ghost use Rattle.feed_list.specs.Lists.{HasFeedWithin};
ghost use Rattle.feed_list.specs.declared.row.ListRow.TheVariants as listed;
ghost use Rattle.run_base.specs.Counted.{RoseAtMost, RoseBy, counters};
ghost use Rattle.run_rows.specs.follow_engine.Engines.{engine_data};
ghost use Rattle.run_list.specs.Listed.{input_in, row_outcome};
ghost use Rattle.run_list.specs.Stops.{IsReadFor, IsStop};
ghost use Rattle.run_list.specs.Taken.{Counts, IsRowEnd};

use crate::exchanging::take_timetable;
use crate::stop::Stop;
use feed_list::{ListRow, SnapshotRow};
use rt_outside::{Files, Steps};
use run_base::Fault;
use run_rows::{Engine, RowEnd, Telling, take_row};
use std::alloc::Global;
use std::sync::ledger::Ledger;

/// Takes what a row has, whose number counts from 0: its snapshot, or its timetable.
pub fn take_listed<'a, F: Files, D: Ledger, T: Ledger>(
    alloc: Global,
    engine: Engine,
    number: u64,
    row: &'a ListRow,
    files: &mut F,
    decodes: &mut Steps<D>,
    tests: &mut Steps<T>,
) -> Result<RowEnd, Stop<'a>>
    requires within { HasFeedWithin row.now }
    requires applied { (engine_data engine).applied < 1000000 }
    ensures outcome { IfOk result (IsRowEnd (contents_told (F.state files.old).told) number row.now engine) }
    ensures counted { IfSome (contents_told (F.state files.old).told) (λ held.
        OnOk result (Counts RoseBy (λ st. row_outcome st number row.now (input_in row.now held)) engine (counters decodes.old tests.old) (counters decodes.new tests.new))) }
    ensures most { IfSome (contents_told (F.state files.old).told) (λ held.
        Counts RoseAtMost (λ st. row_outcome st number row.now (input_in row.now held)) engine (counters decodes.old tests.old) (counters decodes.new tests.new)) }
    ensures contents { contents_told (F.state files.new).told ≡ contents_told (F.state files.old).told }
    ensures later { (F.state files.old).faults ≤ (F.state files.new).faults }
    ensures stop { IfErr result (IsStop (IsReadFor row.now) (F.state files.new).asked (Rose (F.state files.old).faults (F.state files.new).faults) ⊥) }
{
    match row {
        ListRow::Snapshot(row) => take_snapshot(alloc, engine, number, row, files, decodes, tests),
        ListRow::Timetable(folder) => {
            take_timetable(alloc, engine, number, folder.as_str(), files, tests)
        }
    }
}

// Takes the snapshot of a row.
fn take_snapshot<'a, F: Files, D: Ledger, T: Ledger>(
    alloc: Global,
    engine: Engine,
    number: u64,
    row: &'a SnapshotRow,
    files: &mut F,
    decodes: &mut Steps<D>,
    tests: &mut Steps<T>,
) -> Result<RowEnd, Stop<'a>>
    requires feed { row.now.feed < 16 }
    requires applied { (engine_data engine).applied < 1000000 }
    ensures outcome { IfOk result (IsRowEnd (contents_told (F.state files.old).told) number (listed.Snapshot row.now) engine) }
    ensures counted { IfSome (contents_told (F.state files.old).told) (λ held.
        OnOk result (Counts RoseBy (λ st. row_outcome st number (listed.Snapshot row.now) (input_in (listed.Snapshot row.now) held)) engine (counters decodes.old tests.old) (counters decodes.new tests.new))) }
    ensures most { IfSome (contents_told (F.state files.old).told) (λ held.
        Counts RoseAtMost (λ st. row_outcome st number (listed.Snapshot row.now) (input_in (listed.Snapshot row.now) held)) engine (counters decodes.old tests.old) (counters decodes.new tests.new)) }
    ensures contents { contents_told (F.state files.new).told ≡ contents_told (F.state files.old).told }
    ensures later { (F.state files.old).faults ≤ (F.state files.new).faults }
    ensures stop { IfErr result (IsStop (IsReadFor (listed.Snapshot row.now)) (F.state files.new).asked (Rose (F.state files.old).faults (F.state files.new).faults) ⊥) }
{
    match take_row(
        alloc,
        Telling::Changes,
        engine,
        number,
        row,
        files,
        decodes,
        tests,
    ) {
        Ok(end) => Ok(end),
        Err(Fault::Read) => Err(Stop::Read(row.path.as_str())),
        Err(Fault::Write) => Err(Stop::Write),
        Err(Fault::Memory) => Err(Stop::Memory),
    }
}

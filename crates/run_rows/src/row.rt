//! The snapshot of a row.
ghost use Rattle.std.specs.Prelude.{◌≡◌, ◌<◌, ◌≤◌, IfSome, IfOk, IfErr, IsErrOf, OnOk};
ghost use Rattle.std.specs.FinMap.{get};
ghost use Rattle.rt_outside.specs.Causes.{Rose};
ghost use Rattle.rt_outside.specs.Store.{contents_told};
ghost use Rattle.follow_engine.specs.Deltas.{delta_value};
ghost use Rattle.follow_engine.specs.Engines.{engine_data};
ghost use Rattle.run_base.specs.Counted.{RoseAtMost, RoseBy, counters};
ghost use Rattle.run_base.specs.Found.{bytes_in, kept_bytes};
ghost use Rattle.run_rows.specs.Followed.{AreTold, IsRowEnd, RowCounts, Takes};

use crate::row_lines::RowLines;
use crate::telling::Telling;
use feed_codec::Refusal;
use feed_list::SnapshotRow;
use feed_stream::Kept;
use follow_engine::{Delta, Engine};
use rt_outside::{Files, Steps};
use rt_report::{Accepted, accepted_line, refused_line};
use run_base::{Fault, read_kept};
use std::alloc::{AllocError, Global};
use std::sync::ledger::Ledger;

/// The engine after a row, and the row's lines.
#[derive(Drop)]
pub struct RowEnd {
    pub engine: Engine,
    pub lines: RowLines,
}

// The lines on an accepted snapshot, by what it changed.
fn told(
    alloc: Global,
    telling: Telling,
    number: u64,
    row: &SnapshotRow,
    delta: Delta,
) -> Result<RowLines, AllocError>
    ensures { IfOk result (AreTold telling number row.now (delta_value delta)) }
{
    let it = Accepted {
        feed: row.feed,
        row: number,
        snapshot: delta.snapshot,
        moment: row.moment,
        entities: delta.entities,
        tested: delta.tested,
        paired: delta.paired,
        bounded: delta.bounded,
        peaked: delta.peaked,
    };
    let first = accepted_line(alloc, &it)?;
    match telling {
        Telling::Counts => Ok(RowLines::alone(alloc, first, false)),
        Telling::Changes => Ok(RowLines::with_changes(first, delta.opened, delta.closed)),
    }
}

// Takes a snapshot: one that is accepted is put at the end of the engine's history, and one that is refused leaves it as it
// is.
fn take<D: Ledger, T: Ledger>(
    alloc: Global,
    telling: Telling,
    engine: Engine,
    number: u64,
    row: &SnapshotRow,
    found: Result<Kept, Refusal>,
    decodes: &mut Steps<D>,
    tests: &mut Steps<T>,
) -> Result<RowEnd, AllocError>
    requires feed { row.now.feed < 16 }
    requires applied { (engine_data engine).applied < 1000000 }
    ensures outcome { IfOk result (Takes telling number row.now (kept_bytes found) engine) }
    ensures counted { OnOk result (RowCounts RoseBy engine row.now (kept_bytes found) (counters decodes.old tests.old) (counters decodes.new tests.new)) }
    ensures most { RowCounts RoseAtMost engine row.now (kept_bytes found) (counters decodes.old tests.old) (counters decodes.new tests.new) }
{
    match found {
        Ok(kept) => {
            let (engine, delta) = engine.apply(row.feed, row.moment, kept, decodes, tests)?;
            let lines = told(alloc, telling, number, row, delta)?;
            Ok(RowEnd { engine, lines })
        }
        Err(refusal) => {
            let first = refused_line(alloc, number, &refusal)?;
            let lines = RowLines::alone(alloc, first, true);
            Ok(RowEnd { engine, lines })
        }
    }
}

/// Reads the snapshot of a row, whose number counts from 0, and takes it.
pub fn take_row<F: Files, D: Ledger, T: Ledger>(
    alloc: Global,
    telling: Telling,
    engine: Engine,
    number: u64,
    row: &SnapshotRow,
    files: &mut F,
    decodes: &mut Steps<D>,
    tests: &mut Steps<T>,
) -> Result<RowEnd, Fault>
    requires feed { row.now.feed < 16 }
    requires applied { (engine_data engine).applied < 1000000 }
    ensures outcome { IfOk result (IsRowEnd (contents_told (F.state files.old).told) telling number row.now engine) }
    ensures counted { IfSome (contents_told (F.state files.old).told) (λ held.
        OnOk result (RowCounts RoseBy engine row.now (bytes_in (get held row.now.path)) (counters decodes.old tests.old) (counters decodes.new tests.new))) }
    ensures most { IfSome (contents_told (F.state files.old).told) (λ held.
        RowCounts RoseAtMost engine row.now (bytes_in (get held row.now.path)) (counters decodes.old tests.old) (counters decodes.new tests.new)) }
    ensures contents { contents_told (F.state files.new).told ≡ contents_told (F.state files.old).told }
    ensures asked { IfSome (F.state files.new).asked (λ last. last ≡ row.now.path) }
    ensures later { (F.state files.old).faults ≤ (F.state files.new).faults }
    ensures read { IsErrOf result Fault.Read → Rose (F.state files.old).faults (F.state files.new).faults }
    ensures not_write { IsErrOf result Fault.Write → ⊥ }
{
    let before = engine.kept_of(row.feed);
    let found = read_kept(alloc, files, row.path.as_str(), before)?;
    Ok(take(alloc, telling, engine, number, row, found, decodes, tests)?)
}

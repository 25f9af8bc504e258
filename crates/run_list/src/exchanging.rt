//! The row of a timetable.
ghost use Rattle.std.specs.Prelude.{◌≡◌, ◌+◌, ◌*◌, ◌≤◌, IfSome, IfOk, IfErr, OnOk, Some, Err};
ghost use Rattle.rt_outside.specs.Causes.{Rose};
ghost use Rattle.rt_outside.specs.Store.{contents_told};
ghost use Rattle.rule_history.specs.Answered.{tables_of};
ghost use Rattle.run_rows.specs.follow_engine.Deltas.{all_closed, all_opened};
ghost use Rattle.timetable.specs.Timetables.{Tables};
ghost use Rattle.timetable.specs.Timetables.{tables_of as tables_in_folder};
ghost use Rattle.timetable_exchange.specs.Retested.{retested};
ghost use Rattle.run_timetable.specs.Timetables.{IsTableFile};
ghost use Rattle.run_list.specs.Listed.{State, exchange_outcome, timetable_outcome};
ghost use Rattle.run_list.specs.Stops.{IsStop};
ghost use Rattle.run_list.specs.Taken.{Gives, IsIn, IsTableEnd, TellsExchange};

use crate::stop::Stop;
use rt_outside::{Files, Steps};
use run_rows::{Engine, RowEnd, RowLines};
use run_timetable::why_refused;
use snapshot_lines::{Exchanged, exchanged_line, refused_timetable_line};
use std::alloc::{AllocError, Global};
use std::sync::ledger::Ledger;
use timetable::{LoadFault, Timetable};
use timetable_exchange::{Exchange, exchange};

// The lines on an accepted timetable, by what it changed.
fn told(alloc: Global, number: u64, change: Exchange) -> Result<RowLines, AllocError>
    ensures { IfOk result (TellsExchange number change.entities change.retested (all_opened change.opened) (all_closed change.closed)) }
{
    let it = Exchanged {
        row: number,
        entities: change.entities,
        retested: change.retested,
    };
    let first = exchanged_line(alloc, &it)?;
    Ok(RowLines::with_changes(first, change.opened, change.closed))
}

// Has the engine follow with a timetable that is accepted.
fn take<T: Ledger>(
    alloc: Global,
    engine: Engine,
    number: u64,
    table: Timetable,
    tests: &mut Steps<T>,
) -> Result<RowEnd, AllocError>
    ensures gives { IfOk result (λ end. (u : Tables) → tables_of table ≡ Some u → Gives (λ st. exchange_outcome st number u) engine end) }
    ensures counted { OnOk result ((st : State) → IsIn st engine → tests.new ≡ tests.old + 40 * retested st.table (tables_of table) st.history) }
    ensures most { (st : State) → IsIn st engine → tests.new ≤ tests.old + 40 * retested st.table (tables_of table) st.history }
{
    let (engine, change) = exchange(alloc, engine, table, tests)?;
    let lines = told(alloc, number, change)?;
    Ok(RowEnd { engine, lines })
}

// Tells that a timetable is refused: the engine follows with the one before it.
fn keep(
    alloc: Global,
    engine: Engine,
    number: u64,
    folder: &str,
    fault: LoadFault,
) -> Result<RowEnd, AllocError>
    ensures { IfOk result (Gives (λ st. timetable_outcome st number folder.now (Err fault)) engine) }
{
    let why = why_refused(alloc, folder, fault)?;
    let first = refused_timetable_line(alloc, number, why.as_str())?;
    let lines = RowLines::alone(alloc, first, true);
    Ok(RowEnd { engine, lines })
}

/// Reads the timetable of a row, whose number counts from 0, and has the engine follow with it. One that is refused is told, and the one before it stays.
pub fn take_timetable<'a, F: Files, T: Ledger>(
    alloc: Global,
    engine: Engine,
    number: u64,
    folder: &'a str,
    files: &mut F,
    tests: &mut Steps<T>,
) -> Result<RowEnd, Stop<'a>>
    ensures outcome { IfOk result (IsTableEnd (contents_told (F.state files.old).told) number folder.now engine) }
    ensures counted { IfSome (contents_told (F.state files.old).told) (λ held. OnOk result ((st : State) → IsIn st engine
        → tests.new ≡ tests.old + (timetable_outcome st number folder.now (tables_in_folder folder.now held)).work.tests)) }
    ensures most { IfSome (contents_told (F.state files.old).told) (λ held. (st : State) → IsIn st engine
        → tests.new ≤ tests.old + (timetable_outcome st number folder.now (tables_in_folder folder.now held)).work.tests) }
    ensures contents { contents_told (F.state files.new).told ≡ contents_told (F.state files.old).told }
    ensures later { (F.state files.old).faults ≤ (F.state files.new).faults }
    ensures stop { IfErr result (IsStop (IsTableFile (Some folder.now)) (F.state files.new).asked (Rose (F.state files.old).faults (F.state files.new).faults) ⊥) }
{
    match Timetable::load(alloc, files, folder) {
        Ok(table) => match take(alloc, engine, number, table, tests) {
            Ok(end) => Ok(end),
            Err(_) => Err(Stop::Memory),
        },
        Err(LoadFault::ReadFault(file)) => Err(Stop::ReadIn(folder, file.name())),
        Err(LoadFault::Memory) => Err(Stop::Memory),
        Err(fault) => match keep(alloc, engine, number, folder, fault) {
            Ok(end) => Ok(end),
            Err(_) => Err(Stop::Memory),
        },
    }
}

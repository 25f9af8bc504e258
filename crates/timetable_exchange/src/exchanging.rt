//! An engine with another timetable.
ghost use Rattle.std.specs.Prelude.{◌≡◌, ◌+◌, ◌-◌, ◌*◌, ◌≤◌, List, Option, length, IfOk, OnOk};
ghost use Rattle.timetable.specs.Timetables.{Tables};
ghost use Rattle.rule_history.specs.Answered.{tables_of};
ghost use Rattle.rule_history.specs.Findings.{findings};
ghost use Rattle.rule_history.specs.History.{Snapshot};
ghost use Rattle.engine_laws.specs.Standings.{Matches, renewed};
ghost use Rattle.follow_engine.specs.Deltas.{all_closed, all_opened};
ghost use Rattle.follow_engine.specs.Engines.{engine_data};
ghost use Rattle.follow_engine.specs.Retabled.{OpensAndCloses};
ghost use Rattle.timetable_exchange.specs.Retested.{entities_after, retested};

use crate::change::Exchange;
use crate::touching::{Touched, touch};
use follow_engine::{Engine, Retabled};
use rt_outside::Steps;
use std::alloc::{AllocError, Global};
use std::sync::ledger::Ledger;
use timetable::Timetable;

/// Gives an engine another timetable. It then matches the same history with that one: each rule at a place keeps its number, and one that is new there has
/// the number of the last snapshot.
///
/// `tests` ticks 40 times for each entity that is judged again. The one error is want of memory; the engine is gone then.
pub fn exchange<T: Ledger>(
    alloc: Global,
    engine: Engine,
    table: Timetable,
    tests: &mut Steps<T>,
) -> Result<(Engine, Exchange), AllocError>
    ensures matches { IfOk result (λ r. (t : Option Tables) (h : List Snapshot) → Matches (engine_data engine) t h → Matches (engine_data r.0) (tables_of table) h) }
    ensures numbers { IfOk result (λ r. (t : Option Tables) (h : List Snapshot) → Matches (engine_data engine) t h
        → (engine_data r.0).list ≡ renewed (engine_data engine).list (length h - 1) (findings (tables_of table) h)) }
    ensures changes { IfOk result (λ r. (t : Option Tables) (h : List Snapshot) → Matches (engine_data engine) t h
        → OpensAndCloses t (tables_of table) h (engine_data r.0).list (all_opened r.1.opened) (all_closed r.1.closed)) }
    ensures entities { IfOk result (λ r. (t : Option Tables) (h : List Snapshot) → Matches (engine_data engine) t h → r.1.entities ≡ length (entities_after h)) }
    ensures retested { IfOk result (λ r. (t : Option Tables) (h : List Snapshot) → Matches (engine_data engine) t h → r.1.retested ≡ retested t (tables_of table) h) }
    ensures tested { OnOk result ((t : Option Tables) (h : List Snapshot) → Matches (engine_data engine) t h → tests.new ≡ tests.old + 40 * retested t (tables_of table) h) }
    ensures most { (t : Option Tables) (h : List Snapshot) → Matches (engine_data engine) t h → tests.new ≤ tests.old + 40 * retested t (tables_of table) h }
{
    let Touched { keys, entities } = touch(alloc, &engine, &table)?;
    let retested = keys.as_slice().len() as u64;
    let (engine, retabled) = engine.retable(table, keys.as_slice(), tests)?;
    let Retabled { opened, closed } = retabled;
    let exchange = Exchange {
        opened,
        closed,
        entities,
        retested,
    };
    Ok((engine, exchange))
}

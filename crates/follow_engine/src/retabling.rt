//! Another timetable: what it concerns is judged again.
ghost use Rattle.std.specs.Prelude.{◌≡◌, ◌+◌, ◌-◌, ◌*◌, ◌≤◌, length, IfOk, OnOk};
ghost use Rattle.rule_history.specs.Answered.{tables_of};
ghost use Rattle.exchanged_timetables.specs.Exchange.{IsExchanged};
ghost use Rattle.exchanged_timetables.specs.Touched.{CanExchange};
ghost use Rattle.follow_engine.specs.Deltas.{all_closed, all_opened};

use exchanged_timetables::{Feeds, Judging, Retabled, retable};
use rt_outside::Steps;
use rule_table::EntityKey;
use std::alloc::AllocError;
use std::sync::ledger::Ledger;

/// What follows another timetable: the feeds, and what it changed.
#[derive(Drop)]
pub(crate) struct Turned {
    pub feeds: Feeds,
    pub retabled: Retabled,
}

/// Judges the touched entities again with the timetable, after so many snapshots as were taken. `tests` ticks once for each rule that is judged.
pub(crate) fn turn<T: Ledger>(
    judging: &Judging<'_>,
    feeds: Feeds,
    touched: &[EntityKey],
    tests: &mut Steps<T>,
) -> Result<Turned, AllocError>
    requires { CanExchange (tables_of judging.now.table.now) touched.now feeds }
    ensures exchanged { IfOk result (λ r. IsExchanged (tables_of judging.now.table.now) (judging.now.applied - 1) feeds r.feeds (all_opened r.retabled.opened) (all_closed r.retabled.closed)) }
    ensures tested { OnOk result (tests.new ≡ tests.old + 40 * length touched.now) }
    ensures most { tests.new ≤ tests.old + 40 * length touched.now }
{
    let Feeds { mut held, rows } = feeds;
    let retabled = retable(judging, touched, &mut held, tests)?;
    Ok(Turned {
        feeds: Feeds { held, rows },
        retabled,
    })
}

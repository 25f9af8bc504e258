//! Entities judged again with another timetable.
ghost use Rattle.std.specs.Prelude.{◌≡◌, ◌+◌, ◌-◌, ◌*◌, ◌≤◌, length, IfOk, OnOk};
ghost use Rattle.rule_history.specs.Answered.{tables_of};
ghost use Rattle.taken_snapshots.specs.standing_walks.Changes.{all_closed, all_opened};
ghost use Rattle.taken_snapshots.specs.held_feeds.States.{state_of};
ghost use Rattle.exchanged_timetables.specs.Exchange.{IsExchanged};
ghost use Rattle.exchanged_timetables.specs.Touched.{CanExchange};

use feed_values::Items;
use rt_outside::Steps;
use rule_table::EntityKey;
use std::alloc::AllocError;
use std::sync::ledger::Ledger;
use taken_snapshots::{
    Closed, HeldFeeds, Judging, LocalPart, Opened, Renewal, Tolds, hand_out, judge_again,
};

/// What another timetable changed.
#[derive(Drop)]
pub struct Retabled {
    /// The findings that weren't there with the timetable before it with the same facts, in the order of findings.
    pub opened: Items<Opened>,
    /// The rules at places that stood with that one and don't now, in the order of findings.
    pub closed: Items<Closed>,
}

/// Judges the touched entities again by themselves and with the timetable, after so many snapshots as were taken, with what that opens and closes. A rule
/// that is new at its place has the number of the last snapshot. `tests` ticks 40 times for each key.
///
/// After want of memory what is held is of no further use.
pub fn retable<T: Ledger>(
    judging: &Judging<'_>,
    touched: &[EntityKey],
    held: &mut HeldFeeds,
    tests: &mut Steps<T>,
) -> Result<Retabled, AllocError>
    requires { CanExchange (tables_of judging.now.table.now) touched.now (state_of held.old) }
    ensures exchanged { IfOk result (λ r. IsExchanged (tables_of judging.now.table.now) (judging.now.applied - 1) (state_of held.old) (state_of held.new) (all_opened r.opened) (all_closed r.closed)) }
    ensures ticked { OnOk result (tests.new ≡ tests.old + 40 * length touched.now) }
    ensures most { tests.new ≤ tests.old + 40 * length touched.now }
{
    let alloc = judging.alloc;
    let local = LocalPart {
        rules: &judging.rules.parts,
        table: judging.table,
    };
    let again = Renewal {
        alloc,
        part: 0,
        judge: &local,
        applied: judging.applied.saturating_sub(1),
    };
    let mut tolds = Tolds::new(alloc);
    judge_again(&again, touched, &mut held.index, &mut tolds, tests)?;
    let mut opened = Items::new(alloc);
    let mut closed = Items::new(alloc);
    hand_out(tolds, &mut opened, &mut closed)?;
    Ok(Retabled { opened, closed })
}

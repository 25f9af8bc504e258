//! What is told before entities are judged.
ghost use Rattle.std.specs.Prelude.{◌≡◌, ◌+◌, ◌≤◌, ℕ, IfOk, OnOk};
ghost use Rattle.rule_table.specs.declared.key.EntityKey.{EntityKey as Key};
ghost use Rattle.snapshot_steps.specs.standing_walks.Walked.{IsInOrder};
ghost use Rattle.snapshot_steps.specs.touched_entities.Again.{list_under};
ghost use Rattle.snapshot_steps.specs.cached_laws.State.{IsState};
ghost use Rattle.snapshot_steps.specs.cached_laws.Judged.{AreFirstTold, header_then};
ghost use Rattle.snapshot_steps.specs.held_feeds.States.{state_of};
ghost use Rattle.snapshot_steps.specs.Coming.{IsComing};
ghost use Rattle.snapshot_steps.specs.Taken.{snapshot_of};

use feed_values::Items;
use rt_outside::Steps;
use snapshot_steps::{
    Coming, HeldFeeds, Judging, Standing, Taken, Tolds, close_gone, renew_header,
};
use std::alloc::{AllocError, Global};
use std::sync::ledger::Ledger;

/// What stands on the header then, and what was told: what closes at entities that are gone, and what opens and closes on the header.
#[derive(Drop)]
pub(crate) struct First {
    pub list: Items<Standing>,
    pub tolds: Tolds,
}

pub(crate) fn tell_first<T: Ledger>(
    judging: &Judging<'_>,
    held: &HeldFeeds,
    taken: &Taken,
    coming: &Coming,
    tests: &mut Steps<T>,
) -> Result<First, AllocError>
    requires state { IsState (state_of held.now) }
    requires ordered { (k : Key) (part : ℕ) → IsInOrder (list_under held.now.index k part) }
    requires coming { IsComing (snapshot_of taken.now) held.now.index coming.now }
    ensures list { IfOk result (λ first. first.list ≡ header_then judging.now.applied (snapshot_of taken.now) (state_of held.now)) }
    ensures told { IfOk result (λ first. AreFirstTold judging.now.applied (snapshot_of taken.now) (state_of held.now) first.tolds) }
    ensures ticked { OnOk result (tests.new ≡ tests.old + 10) }
    ensures most { tests.new ≤ tests.old + 10 }
{
    let mut tolds = Tolds::new(judging.alloc);
    let gone = coming.changes.gone.as_slice();
    close_gone(judging.alloc, gone, &held.index, &mut tolds)?;
    let list = renew_header(judging, held, taken, coming, &mut tolds, tests)?;
    Ok(First { list, tolds })
}

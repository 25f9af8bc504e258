//! The header of a snapshot judged.
ghost use Rattle.std.specs.Prelude.{◌≡◌, ◌+◌, ◌≤◌, ◌==◌, ℕ, List, IfOk, OnOk, if◌then◌else◌};
ghost use Rattle.rule_table.specs.declared.key.EntityKey.{EntityKey as Key};
ghost use Rattle.engine_laws.specs.HeldFeeds.{head_found};
ghost use Rattle.held_feeds.specs.standing_walks.Walked.{IsInOrder};
ghost use Rattle.held_feeds.specs.touched_entities.Told.{AreTolds, header_told, plus, told_at, told_between};
ghost use Rattle.held_feeds.specs.cached_laws.State.{feed_of, header_at};
ghost use Rattle.held_feeds.specs.cached_laws.Judged.{header_then};
ghost use Rattle.held_feeds.specs.States.{state_of};
ghost use Rattle.snapshot_steps.specs.Coming.{IsComing};
ghost use Rattle.snapshot_steps.specs.Taken.{snapshot_of};

use crate::coming::Coming;
use crate::rules::Judging;
use crate::taken::Taken;
use feed_values::Items;
use held_feeds::{HeldFeeds, Standing, Tolds, renew};
use rt_outside::Steps;
use rule_table::Finding;
use std::alloc::AllocError;
use std::sync::ledger::Ledger;

/// The findings on the header of a snapshot, with the snapshot before it. It ticks ten times.
fn judge_header<T: Ledger>(
    judging: &Judging<'_>,
    held: &HeldFeeds,
    taken: &Taken,
    coming: &Coming,
    tests: &mut Steps<T>,
) -> Result<Items<Finding>, AllocError>
    requires { IsComing (snapshot_of taken.now) held.now.index coming.now }
    ensures found { IfOk result (λ found. found ≡ head_found (snapshot_of taken.now) (feed_of (state_of held.now) taken.now.feed).last) }
    ensures ticked { OnOk result (tests.new ≡ tests.old + 10) }
    ensures most { tests.new ≤ tests.old + 10 }
{
    judging.rules.headers.judge(
        judging.alloc,
        taken.feed,
        &coming.header,
        coming.before.as_ref(),
        coming.changes.reordered,
        taken.moment,
        tests,
    )
}

/// What stands on the header of a snapshot: judged anew, with what that opens and closes.
pub fn renew_header<T: Ledger>(
    judging: &Judging<'_>,
    held: &HeldFeeds,
    taken: &Taken,
    coming: &Coming,
    tolds: &mut Tolds,
    tests: &mut Steps<T>,
) -> Result<Items<Standing>, AllocError>
    requires ordered { IsInOrder (header_at held.now.headers.items taken.now.feed).list }
    requires coming { IsComing (snapshot_of taken.now) held.now.index coming.now }
    ensures list { IfOk result (λ list. list ≡ header_then judging.now.applied (snapshot_of taken.now) (state_of held.now)) }
    ensures own { OnOk result (AreTolds tolds.old → AreTolds tolds.new) }
    ensures told { OnOk result ((k : Key) → told_at tolds.new k ≡ told_at tolds.old k) }
    ensures headers { OnOk result ((f : ℕ) → header_told tolds.new f ≡ (if taken.now.feed == f
        then plus (header_told tolds.old f) (told_between (header_at held.now.headers.items taken.now.feed).list (header_then judging.now.applied (snapshot_of taken.now) (state_of held.now)))
        else header_told tolds.old f)) }
    ensures ticked { OnOk result (tests.new ≡ tests.old + 10) }
    ensures most { tests.new ≤ tests.old + 10 }
{
    let found = judge_header(judging, held, taken, coming, tests)?;
    let old = held.list_on(taken.feed);
    let list = renew(judging.alloc, old, found, judging.applied)?;
    tolds.put_header(judging.alloc, taken.feed, old, list.as_slice())?;
    Ok(list)
}

//! A snapshot is followed: it takes its place, and what it changes is judged.
ghost use Rattle.std.specs.Prelude.{◌≡◌, ◌+◌, ◌*◌, ◌<◌, ◌≤◌, ◌++◌, ℕ, length, map, IfOk, OnOk};
ghost use Rattle.std.specs.List.{flat_map};
ghost use Rattle.rule_table.specs.Groups.{Each};
ghost use Rattle.rule_table.specs.Order.{key_cmp};
ghost use Rattle.rule_table.specs.Rises.{Rises};
ghost use Rattle.rule_history.specs.Answered.{tables_of};
ghost use Rattle.rule_history.specs.History.{IsTaken};
ghost use Rattle.engine_laws.specs.Delta.{tested_held};
ghost use Rattle.exchanged_timetables.specs.touched_entities.Told.{feed_closed, feed_opened};
ghost use Rattle.exchanged_timetables.specs.cached_laws.State.{feed_of};
ghost use Rattle.exchanged_timetables.specs.cached_laws.Cached.{AreCached};
ghost use Rattle.exchanged_timetables.specs.snapshot_steps.Taken.{snapshot_of};
ghost use Rattle.follow_engine.specs.Deltas.{all_closed, all_opened};
ghost use Rattle.follow_engine.specs.Followed.{IsFollowed, tests_owed};

use crate::delta::Delta;
use exchanged_timetables::{
    Changed, Feeds, Judged, Judging, Moved, Ready, Taken, Tolds, Touched, hand_out, judge, prepare,
};
use feed_values::Items;
use rt_outside::Steps;
use std::alloc::{AllocError, Global};
use std::sync::ledger::Ledger;

/// All that was told as what the snapshot changed.
fn delta_of(
    alloc: Global,
    applied: u64,
    entities: u64,
    touched: &Touched,
    tolds: Tolds,
) -> Result<Delta, AllocError>
    ensures ordered { OnOk result (Each (λ t. Rises key_cmp (map (λ e. e.0) t.entities)) tolds) }
    ensures opened { IfOk result (λ d. all_opened d.opened ≡ flat_map feed_opened tolds) }
    ensures closed { IfOk result (λ d. all_closed d.closed ≡ flat_map feed_closed tolds) }
    ensures snapshot { IfOk result (λ d. d.snapshot ≡ applied) }
    ensures entities { IfOk result (λ d. d.entities ≡ entities) }
    ensures tested { IfOk result (λ d. d.tested ≡ length touched.now.local) }
    ensures paired { IfOk result (λ d. d.paired ≡ length touched.now.paired) }
    ensures bounded { IfOk result (λ d. d.bounded ≡ length touched.now.bounded) }
    ensures peaked { IfOk result (λ d. d.peaked ≡ length touched.now.peaked) }
{
    let mut opened = Items::new(alloc);
    let mut closed = Items::new(alloc);
    hand_out(tolds, &mut opened, &mut closed)?;
    Ok(Delta {
        snapshot: applied,
        entities,
        opened,
        closed,
        tested: touched.local.as_slice().len() as u64,
        paired: touched.paired.as_slice().len() as u64,
        bounded: touched.bounded.as_slice().len() as u64,
        peaked: touched.peaked.as_slice().len() as u64,
    })
}

/// What follows a snapshot: the feeds, and what it changed.
#[derive(Drop)]
pub(crate) struct Followed {
    pub feeds: Feeds,
    pub delta: Delta,
}

/// Puts a snapshot in its place and judges what it changes. `decodes` ticks once for each entity that is new or has other bytes, `tests` once for each
/// rule that is judged.
pub(crate) fn follow<D: Ledger, T: Ledger>(
    judging: &Judging<'_>,
    feeds: Feeds,
    taken: Taken,
    decodes: &mut Steps<D>,
    tests: &mut Steps<T>,
) -> Result<Followed, AllocError>
    requires cached { AreCached (tables_of judging.now.table.now) feeds.index (feed_of feeds) }
    requires taken { IsTaken (snapshot_of taken) }
    requires feed { taken.feed < 16 }
    ensures followed { IfOk result (λ r. IsFollowed (tables_of judging.now.table.now) judging.now.applied (snapshot_of taken) feeds r.feeds r.delta) }
    ensures decoded { OnOk result (decodes.new ≡ decodes.old + tested_held (snapshot_of taken) (feed_of feeds)) }
    ensures most_decoded { decodes.new ≤ decodes.old + tested_held (snapshot_of taken) (feed_of feeds) }
    ensures tested { OnOk result (tests.new ≡ tests.old + tests_owed (tables_of judging.now.table.now) judging.now.applied (snapshot_of taken) (feed_of feeds)) }
    ensures most_tested { tests.new ≤ tests.old + tests_owed (tables_of judging.now.table.now) judging.now.applied (snapshot_of taken) (feed_of feeds) }
{
    let Feeds { held, rows } = feeds;
    let entities = taken.kept.len() as u64;
    let Ready { coming, changed } = prepare(judging, &held, rows, &taken, decodes)?;
    let Judged { held, tolds } = judge(judging, held, taken, coming, &changed, tests)?;
    let delta = delta_of(
        judging.alloc,
        judging.applied,
        entities,
        &changed.touched,
        tolds,
    )?;
    let Changed { moved, .. } = changed;
    let Moved { rows, .. } = moved;
    Ok(Followed {
        feeds: Feeds { held, rows },
        delta,
    })
}

//! What is known of a snapshot before it takes its place.
ghost use Rattle.std.specs.Prelude.{◌≡◌, ◌+◌, ◌<◌, ◌≤◌, length, IfOk, OnOk};
ghost use Rattle.rule_history.specs.History.{IsTaken};
ghost use Rattle.snapshot_steps.specs.entity_index.Changes.{fresh_places};
ghost use Rattle.snapshot_steps.specs.row_changes.Held.{AreOfEntities, entity_at};
ghost use Rattle.snapshot_steps.specs.cached_laws.State.{IsState, feed_of};
ghost use Rattle.snapshot_steps.specs.cached_laws.Keys.{bytes_before};
ghost use Rattle.snapshot_steps.specs.held_feeds.States.{state_of};
ghost use Rattle.snapshot_steps.specs.Taken.{snapshot_of};
ghost use Rattle.snapshot_steps.specs.Coming.{IsComing};
ghost use Rattle.taken_snapshots.specs.Ready.{IsChanged, IsReady};

use rt_outside::Steps;
use snapshot_steps::{
    Coming, HeldFeeds, HeldRows, Judging, Moved, Rises, Taken, Touched, come, move_rows, touch,
};
use std::alloc::{AllocError, Global};
use std::sync::ledger::Ledger;

/// What a snapshot changes beside its own entities: the rows as they are then, the peaks that it raises, and the keys that are judged again.
#[derive(Drop)]
pub struct Changed {
    pub moved: Moved,
    pub rises: Rises,
    pub touched: Touched,
}

/// What a snapshot brings, and what it changes.
#[derive(Drop)]
pub struct Ready {
    pub coming: Coming,
    pub changed: Changed,
}

// What a snapshot changes that brings this. After want of memory the rows are gone.
fn change(
    judging: &Judging<'_>,
    held: &HeldFeeds,
    rows: HeldRows,
    taken: &Taken,
    coming: &Coming,
) -> Result<Changed, AllocError>
    requires state { IsState (state_of held.now) }
    requires taken { IsTaken (snapshot_of taken.now) }
    requires feed { taken.now.feed < 16 }
    requires rows { AreOfEntities (entity_at (feed_of (state_of held.now))) rows }
    requires coming { IsComing (snapshot_of taken.now) held.now.index coming.now }
    ensures { IfOk result (IsChanged (state_of held.now) (snapshot_of taken.now)) }
{
    let rises = Rises::of(judging.alloc, &held.peaks, &held.index, taken.feed)?;
    let moved = move_rows(judging.alloc, rows, held, taken, coming)?;
    let touched = touch(judging.alloc, held, taken, coming, &moved, &rises)?;
    Ok(Changed {
        moved,
        rises,
        touched,
    })
}

/// Compares a snapshot with what is held. `decodes` ticks once for each entity that is new or has other bytes. After want of memory the rows are gone.
pub fn prepare<D: Ledger>(
    judging: &Judging<'_>,
    held: &HeldFeeds,
    rows: HeldRows,
    taken: &Taken,
    decodes: &mut Steps<D>,
) -> Result<Ready, AllocError>
    requires state { IsState (state_of held.now) }
    requires taken { IsTaken (snapshot_of taken.now) }
    requires feed { taken.now.feed < 16 }
    requires rows { AreOfEntities (entity_at (feed_of (state_of held.now))) rows }
    ensures ready { IfOk result (IsReady (state_of held.now) (snapshot_of taken.now)) }
    ensures ticked { OnOk result (decodes.new ≡ decodes.old + length (fresh_places taken.now.feed (bytes_before (state_of held.now) taken.now.feed) taken.now.kept)) }
    ensures most { decodes.new ≤ decodes.old + length (fresh_places taken.now.feed (bytes_before (state_of held.now) taken.now.feed) taken.now.kept) }
{
    let coming = come(judging.alloc, taken, &held.index, decodes)?;
    let changed = change(judging, held, rows, taken, &coming)?;
    Ok(Ready { coming, changed })
}

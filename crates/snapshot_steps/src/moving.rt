//! The pairing rows and timestamps of the entities that come, go or are others.
ghost use Rattle.std.specs.Prelude.{◌≡◌, ◌++◌, [], ◌<◌, IfOk, map};
ghost use Rattle.rule_history.specs.History.{IsTaken};
ghost use Rattle.engine_laws.specs.HeldFeeds.{rows_held};
ghost use Rattle.held_feeds.specs.entity_index.Changes.{AreIncoming};
ghost use Rattle.held_feeds.specs.row_changes.Held.{AreAllReplaced, AreKindsOf, AreOfEntities, AreReplaced, entity_at};
ghost use Rattle.held_feeds.specs.cached_laws.State.{IsState, feed_of};
ghost use Rattle.held_feeds.specs.cached_laws.Keys.{bytes_before, lasts_then};
ghost use Rattle.held_feeds.specs.States.{state_of};
ghost use Rattle.snapshot_steps.specs.Coming.{IsComing};
ghost use Rattle.snapshot_steps.specs.Moved.{IsMoved};
ghost use Rattle.snapshot_steps.specs.Taken.{snapshot_of};

use crate::coming::Coming;
use crate::taken::Taken;
use held_feeds::{ChangedIds, HeldFeeds, HeldRows, Incoming, Kinds};
use rule_table::EntityKey;
use std::alloc::{AllocError, Global};

/// The rows and timestamps once a snapshot came, the ids of the rows that came or went, and which kinds of rows there were before.
#[derive(Drop)]
pub struct Moved {
    pub rows: HeldRows,
    pub ids: ChangedIds,
    pub before: Kinds,
}

/// Those of the entities that are new or have other bytes.
fn put_coming(
    alloc: Global,
    rows: HeldRows,
    held: &HeldFeeds,
    taken: &Taken,
    coming: &[Incoming],
    ids: &mut ChangedIds,
) -> Result<HeldRows, AllocError>
    requires state { IsState (state_of held.now) }
    requires taken { IsTaken (snapshot_of taken.now) }
    requires feed { taken.now.feed < 16 }
    requires coming { AreIncoming taken.now.feed (bytes_before (state_of held.now) taken.now.feed) taken.now.kept coming.now }
    requires rows { AreReplaced (entity_at (feed_of (state_of held.now))) (entity_at (lasts_then (snapshot_of taken.now) (feed_of (state_of held.now)))) [] rows ids.old }
    ensures { IfOk result (λ next. AreReplaced (entity_at (feed_of (state_of held.now))) (entity_at (lasts_then (snapshot_of taken.now) (feed_of (state_of held.now)))) (map (λ c. c.key) coming.now) next ids.new) }
{
    let mut rows = rows;
    for incoming in coming {
        let key = &incoming.key;
        let old = held.index.entity_of(key);
        rows = rows.update(alloc, key, old, Some(&incoming.entity), ids)?;
    }
    Ok(rows)
}

/// Those of the entities that are gone.
fn take_gone(
    alloc: Global,
    rows: HeldRows,
    held: &HeldFeeds,
    taken: &Taken,
    coming: &Coming,
    ids: &mut ChangedIds,
) -> Result<HeldRows, AllocError>
    requires state { IsState (state_of held.now) }
    requires taken { IsTaken (snapshot_of taken.now) }
    requires feed { taken.now.feed < 16 }
    requires coming { IsComing (snapshot_of taken.now) held.now.index coming.now }
    requires rows { AreReplaced (entity_at (feed_of (state_of held.now))) (entity_at (lasts_then (snapshot_of taken.now) (feed_of (state_of held.now)))) (map (λ c. c.key) coming.now.entities) rows ids.old }
    ensures { IfOk result (λ next. AreReplaced (entity_at (feed_of (state_of held.now))) (entity_at (lasts_then (snapshot_of taken.now) (feed_of (state_of held.now))))
        (map (λ c. c.key) coming.now.entities ++ coming.now.changes.gone) next ids.new) }
{
    let mut rows = rows;
    for key in coming.changes.gone.as_slice() {
        let old = held.index.entity_of(key);
        rows = rows.update(alloc, key, old, None, ids)?;
    }
    Ok(rows)
}

/// Exchanges the rows and timestamps of all entities that a snapshot changes. After want of memory they are gone.
pub fn move_rows(
    alloc: Global,
    rows: HeldRows,
    held: &HeldFeeds,
    taken: &Taken,
    coming: &Coming,
) -> Result<Moved, AllocError>
    requires state { IsState (state_of held.now) }
    requires taken { IsTaken (snapshot_of taken.now) }
    requires feed { taken.now.feed < 16 }
    requires coming { IsComing (snapshot_of taken.now) held.now.index coming.now }
    requires rows { AreOfEntities (entity_at (feed_of (state_of held.now))) rows }
    ensures { IfOk result (IsMoved (snapshot_of taken.now) (feed_of (state_of held.now))) }
{
    let before = Kinds::of(&rows.pairs);
    let mut ids = ChangedIds::new(alloc);
    let came = put_coming(
        alloc,
        rows,
        held,
        taken,
        coming.entities.as_slice(),
        &mut ids,
    )?;
    let rows = take_gone(alloc, came, held, taken, coming, &mut ids)?;
    Ok(Moved { rows, ids, before })
}

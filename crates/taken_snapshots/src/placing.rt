//! A snapshot put in its place and judged.
ghost use Rattle.std.specs.Prelude.{◌≡◌, ◌==◌, ◌+◌, ◌*◌, ◌<◌, ◌≤◌, ℕ, List, false, length, IfOk, OnOk};
ghost use Rattle.feed_values.specs.Views.{natural};
ghost use Rattle.rule_history.specs.Answered.{tables_of};
ghost use Rattle.rule_history.specs.History.{IsTaken};
ghost use Rattle.snapshot_steps.specs.cached_laws.State.{IsState, feed_of, header_at};
ghost use Rattle.history_rules.specs.HeldPeaks.{peak_of};
ghost use Rattle.snapshot_steps.specs.entity_index.Held.{entities_before};
ghost use Rattle.snapshot_steps.specs.vehicle_peaks.Rises.{AreRises, with_rises};
ghost use Rattle.snapshot_steps.specs.cached_laws.Cached.{AreCached};
ghost use Rattle.snapshot_steps.specs.cached_laws.Judged.{AreFirstTold, ArePassed, CanBePassed, IsTakenIn, header_then};
ghost use Rattle.snapshot_steps.specs.cached_laws.Keys.{bytes_before};
ghost use Rattle.snapshot_steps.specs.held_feeds.States.{state_of};
ghost use Rattle.snapshot_steps.specs.Taken.{snapshot_of};
ghost use Rattle.taken_snapshots.specs.Judged.{IsJudged};
ghost use Rattle.snapshot_steps.specs.Coming.{IsComing};
ghost use Rattle.taken_snapshots.specs.Ready.{IsChanged, tests_at};

use crate::preparing::Changed;
use crate::telling::{First, tell_first};
use feed_values::FeedHeader;
use history_rules::Peaks;
use rt_outside::Steps;
use snapshot_steps::{
    BoundedPart, Coming, Header, HeldFeeds, Judging, LocalPart, PairedPart, PartJudges, PeakedPart,
    Rises, Taken, Tolds, exchange, judge_parts, put_header,
};
use std::alloc::{AllocError, Global};
use std::mem;
use std::sync::ledger::Ledger;

/// The feeds with the snapshot judged in its place, and all that was told.
#[derive(Drop)]
pub struct Judged {
    pub held: HeldFeeds,
    pub tolds: Tolds,
}

/// The feeds with the snapshot in its place and the peaks raised, before its entities are judged; its header, and what was told till then.
#[derive(Drop)]
struct Placed {
    held: HeldFeeds,
    header: FeedHeader,
    tolds: Tolds,
}

// Tells what closes at entities that are gone and what the header changes, puts the header in its place, and raises the peaks of its feed. Entities stay.
fn tell_and_raise<T: Ledger>(
    judging: &Judging<'_>,
    held: &mut HeldFeeds,
    taken: &Taken,
    coming: &Coming,
    rises: &Rises,
    tests: &mut Steps<T>,
) -> Result<Tolds, AllocError>
    requires state { IsState (state_of held.old) }
    requires cached { AreCached (tables_of judging.now.table.now) held.old.index (feed_of (state_of held.old)) }
    requires coming { IsComing (snapshot_of taken.now) held.old.index coming.now }
    ensures index { held.new.index ≡ held.old.index }
    ensures header { OnOk result (header_at held.new.headers.items taken.now.feed ≡ record { moment = taken.now.moment; list = header_then judging.now.applied (snapshot_of taken.now) (state_of held.old) }) }
    ensures others { OnOk result ((f : ℕ) → (taken.now.feed == f) ≡ false → header_at held.new.headers.items f ≡ header_at held.old.headers.items f) }
    ensures peaks { OnOk result ((f : ℕ) (vehicle : List ℕ) → peak_of held.new.peaks f vehicle ≡ with_rises rises.now taken.now.feed (peak_of held.old.peaks) f vehicle) }
    ensures told { IfOk result (AreFirstTold judging.now.applied (snapshot_of taken.now) (state_of held.old)) }
    ensures ticked { OnOk result (tests.new ≡ tests.old + 10) }
    ensures most { tests.new ≤ tests.old + 10 }
{
    let First { list, tolds } = tell_first(judging, held, taken, coming, tests)?;
    let on_header = Header {
        moment: taken.moment,
        list,
    };
    put_header(judging.alloc, &mut held.headers, taken.feed, on_header)?;
    let peaks = mem::replace(&mut held.peaks, Peaks::new(judging.alloc));
    held.peaks = rises.raise(peaks, taken.feed)?;
    Ok(tolds)
}

// Tells what the snapshot changes beside what is judged at entities, and puts it in its place.
fn place<T: Ledger>(
    judging: &Judging<'_>,
    held: HeldFeeds,
    taken: Taken,
    coming: Coming,
    rises: &Rises,
    tests: &mut Steps<T>,
) -> Result<Placed, AllocError>
    requires state { IsState (state_of held) }
    requires cached { AreCached (tables_of judging.now.table.now) held.index (feed_of (state_of held)) }
    requires taken { IsTaken (snapshot_of taken) }
    requires feed { taken.feed < 16 }
    requires coming { IsComing (snapshot_of taken) held.index coming }
    requires rises { AreRises (entities_before taken.feed (bytes_before (state_of held) taken.feed)) (peak_of (state_of held).peaks taken.feed) rises.now }
    ensures taken_in { IfOk result (λ p. IsTakenIn judging.now.applied (snapshot_of taken) (state_of held) (state_of p.held)) }
    ensures header { IfOk result (λ p. p.header ≡ coming.header) }
    ensures told { IfOk result (λ p. AreFirstTold judging.now.applied (snapshot_of taken) (state_of held) p.tolds) }
    ensures ticked { OnOk result (tests.new ≡ tests.old + 10) }
    ensures most { tests.new ≤ tests.old + 10 }
{
    let mut held = held;
    let tolds = tell_and_raise(judging, &mut held, &taken, &coming, rises, tests)?;
    let Taken { feed, kept, .. } = taken;
    let Coming {
        header,
        entities,
        ..
    } = coming;
    let HeldFeeds {
        index,
        headers,
        peaks,
    } = held;
    let index = exchange(judging.alloc, index, feed, kept, entities)?;
    Ok(Placed {
        held: HeldFeeds {
            index,
            headers,
            peaks,
        },
        header,
        tolds,
    })
}

// Judges what a snapshot touches, once it is in its place. All but the entities' lists and what is told stays.
fn judge_placed<T: Ledger>(
    judging: &Judging<'_>,
    moment: u64,
    changed: &Changed,
    placed: &mut Placed,
    tests: &mut Steps<T>,
) -> Result<(), AllocError>
    requires { CanBePassed placed.old.held.index changed.now.touched.local changed.now.touched.paired changed.now.touched.bounded changed.now.touched.peaked }
    ensures passed { OnOk result (ArePassed (tables_of judging.now.table.now) judging.now.applied (natural placed.old.header.timestamp) moment changed.now.moved.rows.pairs
        (peak_of placed.old.held.peaks) changed.now.touched.local changed.now.touched.paired changed.now.touched.bounded changed.now.touched.peaked placed.old.held.index placed.new.held.index placed.old.tolds placed.new.tolds) }
    ensures rest { placed.new.held ≡ record placed.old.held { index = placed.new.held.index } }
    ensures ticked { OnOk result (tests.new ≡ tests.old + (40 * length changed.now.touched.local + 3 * length changed.now.touched.paired + 2 * length changed.now.touched.bounded + length changed.now.touched.peaked)) }
    ensures most { tests.new ≤ tests.old + (40 * length changed.now.touched.local + 3 * length changed.now.touched.paired + 2 * length changed.now.touched.bounded + length changed.now.touched.peaked) }
{
    let rules = &judging.rules.parts;
    let judges = PartJudges {
        alloc: judging.alloc,
        applied: judging.applied,
        local: LocalPart {
            rules,
            table: judging.table,
        },
        paired: PairedPart {
            rules,
            rows: &changed.moved.rows.pairs,
        },
        bounded: BoundedPart {
            rules,
            header: &placed.header,
            moment,
        },
        peaked: PeakedPart {
            rules,
            peaks: &placed.held.peaks,
        },
    };
    judge_parts(
        &judges,
        &changed.touched,
        &mut placed.held.index,
        &mut placed.tolds,
        tests,
    )?;
    Ok(())
}

/// Puts a snapshot in its place, raises the peaks of its feed by the one before it, and judges what it touches. `tests` ticks once for each rule that is
/// judged. After want of memory what is held is gone.
pub fn judge<T: Ledger>(
    judging: &Judging<'_>,
    held: HeldFeeds,
    taken: Taken,
    coming: Coming,
    changed: &Changed,
    tests: &mut Steps<T>,
) -> Result<Judged, AllocError>
    requires state { IsState (state_of held) }
    requires cached { AreCached (tables_of judging.now.table.now) held.index (feed_of (state_of held)) }
    requires taken { IsTaken (snapshot_of taken) }
    requires feed { taken.feed < 16 }
    requires coming { IsComing (snapshot_of taken) held.index coming }
    requires changed { IsChanged (state_of held) (snapshot_of taken) changed.now }
    ensures judged { IfOk result (λ r. IsJudged (tables_of judging.now.table.now) judging.now.applied (snapshot_of taken) (state_of held) changed.now.touched (state_of r.held) r.tolds) }
    ensures ticked { OnOk result (tests.new ≡ tests.old + tests_at changed.now.touched) }
    ensures most { tests.new ≤ tests.old + tests_at changed.now.touched }
{
    let moment = taken.moment;
    let mut placed = place(judging, held, taken, coming, &changed.rises, tests)?;
    changed.moved.rows.pairs.stands_in_order();
    judge_placed(judging, moment, changed, &mut placed, tests)?;
    let Placed { held, tolds, .. } = placed;
    Ok(Judged { held, tolds })
}

//! The four parts of an entity's findings judged again.
ghost use Rattle.std.specs.Prelude.{◌≡◌, ◌+◌, ◌*◌, ◌≤◌, length, OnOk};
ghost use Rattle.feed_values.specs.Views.{natural};
ghost use Rattle.rule_history.specs.Answered.{tables_of};
ghost use Rattle.history_rules.specs.HeldPeaks.{peak_of};
ghost use Rattle.held_feeds.specs.cached_laws.Judged.{ArePassed, CanBePassed};

use crate::touching::Touched;
use held_feeds::{
    BoundedPart, EntityIndex, LocalPart, PairedPart, PeakedPart, Renewal, Tolds, judge_again,
};
use rt_outside::Steps;
use std::alloc::{AllocError, Global};
use std::sync::ledger::Ledger;

/// What judges the parts: by an entity with the timetable, with pairing rows, by bounds, and by peaks; and how many snapshots were taken.
#[derive(Clone, Copy)]
pub struct PartJudges<'a> {
    pub alloc: Global,
    pub applied: u64,
    pub local: LocalPart<'a>,
    pub paired: PairedPart<'a>,
    pub bounded: BoundedPart<'a>,
    pub peaked: PeakedPart<'a>,
}

/// Judges each part again under its keys, one part after the other, with what that opens and closes. It ticks 40 times for each key of the first, 3
/// times for each of the second, twice for each of the third and once for each of the fourth.
pub fn judge_parts<T: Ledger>(
    judges: &PartJudges<'_>,
    touched: &Touched,
    index: &mut EntityIndex,
    tolds: &mut Tolds,
    tests: &mut Steps<T>,
) -> Result<(), AllocError>
    requires { CanBePassed index.old touched.now.local touched.now.paired touched.now.bounded touched.now.peaked }
    ensures passed { OnOk result (ArePassed (tables_of judges.now.local.table.now) judges.now.applied (natural judges.now.bounded.header.now.timestamp) judges.now.bounded.moment judges.now.paired.rows.now
        (peak_of judges.now.peaked.peaks.now) touched.now.local touched.now.paired touched.now.bounded touched.now.peaked index.old index.new tolds.old tolds.new) }
    ensures ticked { OnOk result (tests.new ≡ tests.old + (40 * length touched.now.local + 3 * length touched.now.paired + 2 * length touched.now.bounded + length touched.now.peaked)) }
    ensures most { tests.new ≤ tests.old + (40 * length touched.now.local + 3 * length touched.now.paired + 2 * length touched.now.bounded + length touched.now.peaked) }
{
    let alloc = judges.alloc;
    let applied = judges.applied;
    let local = Renewal {
        alloc,
        part: 0,
        judge: &judges.local,
        applied,
    };
    judge_again(&local, touched.local.as_slice(), index, tolds, tests)?;
    let paired = Renewal {
        alloc,
        part: 1,
        judge: &judges.paired,
        applied,
    };
    judge_again(&paired, touched.paired.as_slice(), index, tolds, tests)?;
    let bounded = Renewal {
        alloc,
        part: 2,
        judge: &judges.bounded,
        applied,
    };
    judge_again(&bounded, touched.bounded.as_slice(), index, tolds, tests)?;
    let peaked = Renewal {
        alloc,
        part: 3,
        judge: &judges.peaked,
        applied,
    };
    judge_again(&peaked, touched.peaked.as_slice(), index, tolds, tests)?;
    Ok(())
}

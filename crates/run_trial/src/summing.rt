//! The snapshots of the trial, taken one after the other and summed up.
ghost use Rattle.std.specs.Prelude.{◌≡◌, ◌<◌, None, List, OnOk, Option, IfOk, length};
ghost use Rattle.feed_codec.specs.Refusal.{refusal};
ghost use Rattle.run_rows.specs.follow_engine.Engines.{engine_data};
ghost use Rattle.rule_history.specs.Answered.{tables_of};
ghost use Rattle.rule_history.specs.Changed.{with};
ghost use Rattle.rule_history.specs.History.{Snapshot};
ghost use Rattle.timetable.specs.Timetables.{Tables};
ghost use Rattle.run_base.specs.Counted.{RoseAtMost, RoseBy, counters};
ghost use Rattle.run_rows.specs.Counted.{history_work, work_of};
ghost use Rattle.trial_feed.specs.Snapshots.{trial_snapshots};
ghost use Rattle.run_trial.specs.Tried.{IsSummedUp, history_text, numbered, summary_text};

use crate::sums::{Sums, sum};
use feed_codec::CodecFault;
use feed_stream::{Kept, Splitter};
use rt_outside::Steps;
use run_rows::Engine;
use snapshot_lines::{TrialSums, trial_line};
use std::alloc::{AllocError, Global};
use std::sync::ledger::Ledger;
use timetable::Timetable;
use trial_feed::{SNAPSHOTS, Trial, feed_of, moment_of};

/// So many bytes the splitter is given at once.
const PIECE: usize = 4096;

/// The engine after some snapshots of the trial, and the sums over them.
#[derive(Drop)]
pub struct TrialEnd {
    pub engine: Engine,
    pub sums: Sums,
}

impl TrialEnd {
    // With the snapshot of this number.
    fn with<D: Ledger, T: Ledger>(
        self,
        number: u64,
        kept: Kept,
        decodes: &mut Steps<D>,
        tests: &mut Steps<T>,
    ) -> Result<TrialEnd, AllocError>
        requires number { number < SNAPSHOTS }
        requires applied { (engine_data self.engine).applied < 1000000 }
        ensures summed_up { IfOk result (λ end. (t : Option Tables) (h : List Snapshot) → IsSummedUp t h self → IsSummedUp t (with h (numbered number kept)) end) }
        ensures counted { OnOk result ((t : Option Tables) (h : List Snapshot) → IsSummedUp t h self
            → RoseBy (work_of t h (numbered number kept)) (counters decodes.old tests.old) (counters decodes.new tests.new)) }
        ensures most { (t : Option Tables) (h : List Snapshot) → IsSummedUp t h self
            → RoseAtMost (work_of t h (numbered number kept)) (counters decodes.old tests.old) (counters decodes.new tests.new) }
    {
        let TrialEnd { engine, sums } = self;
        let (engine, delta) = engine.apply(
            feed_of(number),
            moment_of(number),
            kept,
            decodes,
            tests,
        )?;
        let sums = sums.with(&delta)?;
        Ok(TrialEnd { engine, sums })
    }

    // The line that sums up, with how many findings stand.
    fn summary(&self, alloc: Global) -> Result<Vec<u8>, AllocError>
        ensures { IfOk result (λ line. line.items ≡ summary_text (engine_data self.now.engine).list self.now.sums) }
    {
        let findings = count_findings(&self.engine)?;
        let sums = self.sums;
        trial_line(
            alloc,
            &TrialSums {
                snapshots: sums.snapshots,
                findings,
                opened: sums.opened,
                closed: sums.closed,
                tested: sums.tested,
                paired: sums.paired,
                bounded: sums.bounded,
                peaked: sums.peaked,
            },
        )
    }
}

// How many findings stand.
fn count_findings(engine: &Engine) -> Result<u64, AllocError>
    ensures { IfOk result (λ n. n ≡ length (engine_data engine.now).list) }
{
    let mut count = 0;
    for _finding in engine.findings() {
        count = sum(count, 1)?;
    }
    Ok(count)
}

// The snapshot of some bytes, which come in pieces.
fn kept_in_pieces(alloc: Global, bytes: &[u8]) -> Result<Kept, AllocError>
    requires accepted { refusal bytes.now ≡ None }
    ensures { IfOk result (λ kept. kept ≡ bytes.now) }
{
    let mut splitter = Splitter::new(alloc);
    for piece in bytes.chunks(PIECE) {
        splitter = splitter.feed(piece)?;
    }
    match splitter.finish() {
        Ok(kept) => Ok(kept),
        Err(CodecFault::Memory) => Err(AllocError),
        Err(CodecFault::Refused(_)) => unreachable!(),
    }
}

// Makes all snapshots that a seed gives and takes them.
fn take_all<D: Ledger, T: Ledger>(
    alloc: Global,
    timetable: Timetable,
    seed: u64,
    decodes: &mut Steps<D>,
    tests: &mut Steps<T>,
) -> Result<TrialEnd, AllocError>
    ensures summed_up { IfOk result (IsSummedUp (tables_of timetable) (trial_snapshots seed)) }
    ensures counted { OnOk result (RoseBy (history_work (tables_of timetable) (trial_snapshots seed)) (counters decodes.old tests.old) (counters decodes.new tests.new)) }
    ensures most { RoseAtMost (history_work (tables_of timetable) (trial_snapshots seed)) (counters decodes.old tests.old) (counters decodes.new tests.new) }
{
    let mut trial = Trial::new(alloc, seed)?;
    let mut end = TrialEnd {
        engine: Engine::new(alloc, timetable),
        sums: Sums::none(),
    };
    for number in 0..SNAPSHOTS {
        trial.advance(number);
        let bytes = trial.bytes(alloc, number)?;
        let kept = kept_in_pieces(alloc, &bytes)?;
        end = end.with(number, kept, decodes, tests)?;
    }
    Ok(end)
}

/// The line that sums up the snapshots that a seed gives, which are made and taken one after the other.
pub fn sum_up<D: Ledger, T: Ledger>(
    alloc: Global,
    timetable: Timetable,
    seed: u64,
    decodes: &mut Steps<D>,
    tests: &mut Steps<T>,
) -> Result<Vec<u8>, AllocError>
    ensures text { IfOk result (λ text. text.items ≡ history_text (tables_of timetable) (trial_snapshots seed)) }
    ensures counted { OnOk result (RoseBy (history_work (tables_of timetable) (trial_snapshots seed)) (counters decodes.old tests.old) (counters decodes.new tests.new)) }
    ensures most { RoseAtMost (history_work (tables_of timetable) (trial_snapshots seed)) (counters decodes.old tests.old) (counters decodes.new tests.new) }
{
    let end = take_all(alloc, timetable, seed, decodes, tests)?;
    end.summary(alloc)
}

//! The report of `check` on one snapshot.
ghost use Rattle.std.specs.Prelude.{◌≡◌, IfOk, IsErrOf, OnOk, length};
ghost use Rattle.rt_outside.specs.Causes.{Rose};
ghost use Rattle.rt_outside.specs.Sink.{AppendsPrefix};
ghost use Rattle.feed_values.specs.Snapshot.{entities_of};
ghost use Rattle.rule_history.specs.Answered.{tables_of};
ghost use Rattle.run_base.specs.Counted.{RoseAtMost, RoseBy, counters};
ghost use Rattle.run_base.specs.Found.{kept_bytes};
ghost use Rattle.run_base.specs.Carried.{IsPut};
ghost use Rattle.run_snapshot.specs.Counted.{first_work, found_work};
ghost use Rattle.run_snapshot.specs.Reports.{accepted_report, found_report};
ghost use Rattle.run_base.specs.Faults.{IsCarriedOut};

use crate::findings::put_findings;
use feed_codec::Refusal;
use feed_stream::Kept;
use rt_outside::{Sink, Steps};
use rt_report::{Accepted, accepted_line};
use run_base::{Fault, Status, put_refused};
use std::alloc::Global;
use std::sync::ledger::Ledger;
use timetable::Timetable;

/// Writes the report on a snapshot that was accepted or refused, and answers what it answers.
pub fn put_report<S: Sink, D: Ledger, T: Ledger>(
    alloc: Global,
    moment: u64,
    timetable: &Timetable,
    found: Result<Kept, Refusal>,
    out: &mut S,
    decodes: &mut Steps<D>,
    tests: &mut Steps<T>,
) -> Result<Status, Fault>
    ensures text { AppendsPrefix (S.state out.old).written (S.state out.new).written (found_report (accepted_report (tables_of timetable.now) moment) (kept_bytes found)).text }
    ensures whole { IfOk result (IsPut (found_report (accepted_report (tables_of timetable.now) moment) (kept_bytes found)) (S.state out.old).written (S.state out.new).written) }
    ensures carried_out { IfOk result IsCarriedOut }
    ensures not_read { IsErrOf result Fault.Read → ⊥ }
    ensures write { IsErrOf result Fault.Write → Rose (S.state out.old).faults (S.state out.new).faults }
    ensures counted { OnOk result (RoseBy (found_work (kept_bytes found)) (counters decodes.old tests.old) (counters decodes.new tests.new)) }
    ensures most { RoseAtMost (found_work (kept_bytes found)) (counters decodes.old tests.old) (counters decodes.new tests.new) }
{
    match found {
        Ok(kept) => put_accepted(alloc, moment, timetable, &kept, out, decodes, tests),
        Err(refusal) => put_refused(alloc, &refusal, out),
    }
}

// Writes the report on an accepted snapshot: its line, and then its findings. All its entities are new.
fn put_accepted<S: Sink, D: Ledger, T: Ledger>(
    alloc: Global,
    moment: u64,
    timetable: &Timetable,
    kept: &Kept,
    out: &mut S,
    decodes: &mut Steps<D>,
    tests: &mut Steps<T>,
) -> Result<Status, Fault>
    ensures text { AppendsPrefix (S.state out.old).written (S.state out.new).written (accepted_report (tables_of timetable.now) moment kept.now).text }
    ensures whole { IfOk result (IsPut (accepted_report (tables_of timetable.now) moment kept.now) (S.state out.old).written (S.state out.new).written) }
    ensures carried_out { IfOk result IsCarriedOut }
    ensures not_read { IsErrOf result Fault.Read → ⊥ }
    ensures write { IsErrOf result Fault.Write → Rose (S.state out.old).faults (S.state out.new).faults }
    ensures counted { OnOk result (RoseBy (first_work (length (entities_of kept.now))) (counters decodes.old tests.old) (counters decodes.new tests.new)) }
    ensures most { RoseAtMost (first_work (length (entities_of kept.now))) (counters decodes.old tests.old) (counters decodes.new tests.new) }
{
    let count = kept.len() as u64;
    let it = Accepted {
        feed: 0,
        row: 0,
        snapshot: 0,
        moment,
        entities: count,
        tested: count,
        paired: count,
        bounded: count,
        peaked: count,
    };
    let line = accepted_line(alloc, &it)?;
    let error = put_findings(alloc, timetable, moment, kept, line, out, decodes, tests)?;
    Ok(Status::found(error))
}

//! The findings of a snapshot by itself, as lines.
ghost use Rattle.std.specs.Prelude.{◌≡◌, ◌+◌, ◌<◌, ◌≤◌, ◌++◌, List, Option, OnOk, OnErr, IfOk, IsErrOf, length};
ghost use Rattle.std.specs.Io.KnownBytes.{append_known};
ghost use Rattle.std.specs.List.{flat_map};
ghost use Rattle.rt_outside.specs.Causes.{Rose};
ghost use Rattle.rt_outside.specs.Sink.{AppendsPrefix};
ghost use Rattle.feed_values.specs.Snapshot.{entities_of, entity_payloads, header_of};
ghost use Rattle.feed_values.specs.Views.{entity_value, feed_header_value};
ghost use Rattle.timetable.specs.Timetables.{Tables};
ghost use Rattle.rule_history.specs.Answered.{tables_of};
ghost use Rattle.rule_table.specs.Marked.{marked};
ghost use Rattle.rule_table.specs.Answers.{Gathered};
ghost use Rattle.snapshot_keys.specs.judging.Whole.{entity_found, header_found, rows_alone};
ghost use Rattle.snapshot_keys.specs.judging.Judged.{first_answer, first_heads, found_at_seats, snapshot_found};
ghost use Rattle.snapshot_keys.specs.Places.{AreWithin, entity_at, placed};
ghost use Rattle.rt_report.specs.FindingLines.{AddsLines, finding_text, has_error};
ghost use Rattle.run_base.specs.Counted.{RoseAtMost, RoseBy, counters};
ghost use Rattle.run_snapshot.specs.Counted.{entities_work, first_work};
ghost use Rattle.run_snapshot.specs.Sending.{Sends, SendsPart};

use crate::sending::send;
use feed_codec::{decode_entity, decode_header};
use feed_stream::Kept;
use feed_values::{Entity, FeedHeader};
use quiet_vehicles::marks_of;
use rt_outside::{Sink, Steps, put_all};
use rt_report::Lines;
use rule_table::{EntityKey, Mark, PairView};
use run_base::Fault;
use snapshot_keys::{EntityPlace, HeaderRules, Setting, finding_at, places, rows_of};
use std::alloc::{AllocError, Global};
use std::sync::ledger::Ledger;
use timetable::Timetable;

/// Appends the findings on the header of feed 0.
fn judge_header<L: Ledger>(
    alloc: Global,
    rules: &HeaderRules,
    header: &FeedHeader,
    moment: u64,
    lines: &mut Lines,
    tests: &mut Steps<L>,
) -> Result<(), AllocError>
    ensures added { OnOk result ((t : Option Tables) (u : Gathered) → AddsLines lines.old lines.new (header_found t u (first_heads (feed_header_value header.now) moment) 0)) }
    ensures ticked { OnOk result (tests.new ≡ tests.old + 10) }
    ensures most { tests.new ≤ tests.old + 10 }
{
    let found = rules.judge(alloc, 0, header, None, false, moment, tests)?;
    lines.push(alloc, found.as_slice())
}

/// Sends the findings of marks at an entity, one after the other, so that no more than one is held.
fn send_marked<P: PairView, S: Sink>(
    alloc: Global,
    setting: &Setting<'_, P>,
    key: &EntityKey,
    entity: &Entity,
    marks: &[Mark],
    lines: &mut Lines,
    out: &mut S,
) -> Result<(), Fault>
    ensures sent { OnOk result (Sends (S.state out.old).written (S.state out.new).written lines.old lines.new
        (marked (first_answer (tables_of setting.now.table.now) (P.rows setting.now.view.now) (feed_header_value setting.now.header.now) setting.now.moment key.now (entity_value entity.now)) key.now marks.now)) }
    ensures part { OnErr result (SendsPart (S.state out.old).written (S.state out.new).written lines.old
        (marked (first_answer (tables_of setting.now.table.now) (P.rows setting.now.view.now) (feed_header_value setting.now.header.now) setting.now.moment key.now (entity_value entity.now)) key.now marks.now)) }
    ensures not_read { IsErrOf result Fault.Read → ⊥ }
    ensures later { (S.state out.old).faults ≤ (S.state out.new).faults }
    ensures write { IsErrOf result Fault.Write → Rose (S.state out.old).faults (S.state out.new).faults }
{
    for mark in marks {
        let found = finding_at(alloc, setting, key, entity, *mark)?;
        send(alloc, found.as_slice(), lines, out)?;
    }
    Ok(())
}

/// Sends the findings at the entity of a kept snapshot that has this number, which is decoded for it.
fn send_entity<P: PairView, S: Sink, D: Ledger, T: Ledger>(
    alloc: Global,
    setting: &Setting<'_, P>,
    kept: &Kept,
    key: &EntityKey,
    place: usize,
    lines: &mut Lines,
    out: &mut S,
    decodes: &mut Steps<D>,
    tests: &mut Steps<T>,
) -> Result<(), Fault>
    requires { place < length (entity_payloads kept.now) }
    ensures sent { OnOk result (Sends (S.state out.old).written (S.state out.new).written lines.old lines.new
        (entity_found (tables_of setting.now.table.now) (rows_alone (P.rows setting.now.view.now)) (first_heads (feed_header_value setting.now.header.now) setting.now.moment) key.now (entity_at kept.now place))) }
    ensures part { OnErr result (SendsPart (S.state out.old).written (S.state out.new).written lines.old
        (entity_found (tables_of setting.now.table.now) (rows_alone (P.rows setting.now.view.now)) (first_heads (feed_header_value setting.now.header.now) setting.now.moment) key.now (entity_at kept.now place))) }
    ensures not_read { IsErrOf result Fault.Read → ⊥ }
    ensures later { (S.state out.old).faults ≤ (S.state out.new).faults }
    ensures write { IsErrOf result Fault.Write → Rose (S.state out.old).faults (S.state out.new).faults }
    ensures counted { OnOk result (RoseBy (entities_work 1) (counters decodes.old tests.old) (counters decodes.new tests.new)) }
    ensures most { RoseAtMost (entities_work 1) (counters decodes.old tests.old) (counters decodes.new tests.new) }
{
    let entity = decode_entity(alloc, kept.entity(place), decodes)?;
    let marks = marks_of(alloc, setting, key, &entity, tests)?;
    send_marked(alloc, setting, key, &entity, &marks, lines, out)
}

/// Sends the findings at the entities of a kept snapshot, one entity after the other.
fn send_entities<P: PairView, S: Sink, D: Ledger, T: Ledger>(
    alloc: Global,
    setting: &Setting<'_, P>,
    kept: &Kept,
    places: &[EntityPlace],
    lines: &mut Lines,
    out: &mut S,
    decodes: &mut Steps<D>,
    tests: &mut Steps<T>,
) -> Result<(), Fault>
    requires { AreWithin kept.now places.now }
    ensures sent { OnOk result (Sends (S.state out.old).written (S.state out.new).written lines.old lines.new
        (found_at_seats (tables_of setting.now.table.now) (P.rows setting.now.view.now) (first_heads (feed_header_value setting.now.header.now) setting.now.moment) (placed kept.now places.now))) }
    ensures part { OnErr result (SendsPart (S.state out.old).written (S.state out.new).written lines.old
        (found_at_seats (tables_of setting.now.table.now) (P.rows setting.now.view.now) (first_heads (feed_header_value setting.now.header.now) setting.now.moment) (placed kept.now places.now))) }
    ensures not_read { IsErrOf result Fault.Read → ⊥ }
    ensures later { (S.state out.old).faults ≤ (S.state out.new).faults }
    ensures write { IsErrOf result Fault.Write → Rose (S.state out.old).faults (S.state out.new).faults }
    ensures counted { OnOk result (RoseBy (entities_work (length places.now)) (counters decodes.old tests.old) (counters decodes.new tests.new)) }
    ensures most { RoseAtMost (entities_work (length places.now)) (counters decodes.old tests.old) (counters decodes.new tests.new) }
{
    for place in places {
        send_entity(
            alloc,
            setting,
            kept,
            &place.key,
            place.number,
            lines,
            out,
            decodes,
            tests,
        )?;
    }
    Ok(())
}

/// Sends the findings of an accepted snapshot of feed 0, which is the first one of all, behind the lines that are held back.
fn send_snapshot<S: Sink, D: Ledger, T: Ledger>(
    alloc: Global,
    timetable: &Timetable,
    moment: u64,
    kept: &Kept,
    lines: &mut Lines,
    out: &mut S,
    decodes: &mut Steps<D>,
    tests: &mut Steps<T>,
) -> Result<(), Fault>
    ensures sent { OnOk result (Sends (S.state out.old).written (S.state out.new).written lines.old lines.new
        (snapshot_found (tables_of timetable.now) 0 moment (header_of kept.now) (entities_of kept.now))) }
    ensures part { OnErr result (SendsPart (S.state out.old).written (S.state out.new).written lines.old
        (snapshot_found (tables_of timetable.now) 0 moment (header_of kept.now) (entities_of kept.now))) }
    ensures not_read { IsErrOf result Fault.Read → ⊥ }
    ensures later { (S.state out.old).faults ≤ (S.state out.new).faults }
    ensures write { IsErrOf result Fault.Write → Rose (S.state out.old).faults (S.state out.new).faults }
    ensures counted { OnOk result (RoseBy (first_work (length (entities_of kept.now))) (counters decodes.old tests.old) (counters decodes.new tests.new)) }
    ensures most { RoseAtMost (first_work (length (entities_of kept.now))) (counters decodes.old tests.old) (counters decodes.new tests.new) }
{
    let rules = HeaderRules::new();
    let header = decode_header(alloc, kept.header_parts())?;
    let places = places(alloc, 0, kept)?;
    let listed = places.as_slice();
    let rows = rows_of(alloc, kept, listed)?;
    judge_header(alloc, &rules, &header, moment, lines, tests)?;
    let setting = Setting {
        table: timetable,
        view: &rows,
        header: &header,
        moment,
    };
    send_entities(alloc, &setting, kept, listed, lines, out, decodes, tests)
}

/// Writes a line, and behind it the findings of an accepted snapshot of feed 0, which is the first one of all. It answers whether
/// one of them is of an error.
///
/// No more than one entity is held decoded, with a mark of a few bytes for each of its findings, and no more than one finding;
/// lines are written as soon as they fill a piece. So memory grows with the bytes of the snapshot, the ids of its entities and
/// the largest entity, and not with what all of them hold or what is found.
pub fn put_findings<S: Sink, D: Ledger, T: Ledger>(
    alloc: Global,
    timetable: &Timetable,
    moment: u64,
    kept: &Kept,
    first: Vec<u8>,
    out: &mut S,
    decodes: &mut Steps<D>,
    tests: &mut Steps<T>,
) -> Result<bool, Fault>
    ensures text { AppendsPrefix (S.state out.old).written (S.state out.new).written
        (first.items ++ flat_map finding_text (snapshot_found (tables_of timetable.now) 0 moment (header_of kept.now) (entities_of kept.now))) }
    ensures whole { IfOk result (λ error.
        let found = snapshot_found (tables_of timetable.now) 0 moment (header_of kept.now) (entities_of kept.now) in
        (error ≡ has_error found) × ((S.state out.new).written ≡ append_known (S.state out.old).written (first.items ++ flat_map finding_text found))) }
    ensures not_read { IsErrOf result Fault.Read → ⊥ }
    ensures write { IsErrOf result Fault.Write → Rose (S.state out.old).faults (S.state out.new).faults }
    ensures counted { OnOk result (RoseBy (first_work (length (entities_of kept.now))) (counters decodes.old tests.old) (counters decodes.new tests.new)) }
    ensures most { RoseAtMost (first_work (length (entities_of kept.now))) (counters decodes.old tests.old) (counters decodes.new tests.new) }
{
    let mut lines = Lines {
        text: first,
        error: false,
    };
    send_snapshot(
        alloc, timetable, moment, kept, &mut lines, out, decodes, tests,
    )?;
    put_all(out, &lines.text)?;
    Ok(lines.error)
}

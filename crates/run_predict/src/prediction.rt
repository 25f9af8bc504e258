//! The command `predict`.
ghost use Rattle.std.specs.Prelude.{◌≡◌, ◌<◌, ◌≤◌, ◌∷◌, [], Some, IfSome, IfOk, OnOk, IsErrOf, Contains, length, slice_get};
ghost use Rattle.std.specs.FinMap.{get};
ghost use Rattle.rt_outside.specs.Causes.{Rose};
ghost use Rattle.rt_outside.specs.Store.{contents_told};
ghost use Rattle.feed_values.specs.Snapshot.{entities_of, entity_payloads};
ghost use Rattle.feed_values.specs.Views.{entity_value};
ghost use Rattle.timetable.specs.Lookups.{tables_in};
ghost use Rattle.trip_calendar.specs.Zones.{zone_of};
ghost use Rattle.run_base.specs.Faults.{IsCarriedOut};
ghost use Rattle.run_base.specs.Found.{snapshot_in};
ghost use Rattle.run_base.specs.Outside.{outside};
ghost use Rattle.run_predict.specs.Predicted.{AreUpdateRows, IsPredictInput, IsPredictReport, IsSnapshotReport, IsTable, IsZonedInput, IsZonedReport, WritesAllTexts, WritesTexts};
ghost use Rattle.run_base.specs.Carried.{CarriesOut, WritesPart, WritesWhole};

use crate::zone_input::{told_as, zone_input};
use feed_codec::decode_entity;
use feed_stream::Kept;
use feed_values::{Entity, TripUpdate};
use prediction_table::{prediction_head, prediction_rows};
use propagation::Resolver;
use rt_outside::{Files, Sink, Steps, put_all};
use rule_table::count_one;
use run_base::{Fault, Status, put_refused, read_kept, say_fault, say_input_fault};
use run_timetable::load_fault;
use run_words::ZoneWord;
use std::alloc::{AllocError, Global};
use std::collections::BTreeMap;
use std::marker::Brand;
use std::sync::ledger::{Blank, Ledger};
use timetable::Timetable;
use trip_calendar::Zone;

/// Carries out `predict` on the snapshot in this file, at this moment, as POSIX time in seconds, with the timetable in a folder,
/// whose times are those of a zone.
///
/// The timetable is read first, then the zone, then the snapshot; a timetable or a zone that is refused ends the run. An entity is
/// decoded when its turn comes, and its rows are written before the next one's turn: so memory grows with the bytes of the snapshot,
/// the ids of its entities and the largest entity, and not with what all of them hold or with the table. Where 2^32 entities have one
/// id, or a trip update has 2^32 updates, it answers want of memory.
pub fn predict<F: Files, S: Sink, E: Sink>(
    alloc: Global,
    folder: &str,
    zone: &ZoneWord,
    moment: u64,
    file: &str,
    files: &mut F,
    out: &mut S,
    err: &mut E,
) -> Status
    ensures { CarriesOut (IsPredictReport folder.now zone.now moment file.now) (IsPredictInput folder.now zone.now file.now)
        (outside (F.state files.old) (S.state out.old) (E.state err.old))
        (outside (F.state files.new) (S.state out.new) (E.state err.new)) result }
{
    match Timetable::load(alloc, files, folder) {
        Ok(table) => predict_with(alloc, &table, zone, moment, file, files, out, err),
        Err(fault) => say_input_fault(err, load_fault(alloc, folder, fault)),
    }
}

// Carries it out with this timetable.
fn predict_with<F: Files, S: Sink, E: Sink>(
    alloc: Global,
    table: &Timetable,
    zone: &ZoneWord,
    moment: u64,
    file: &str,
    files: &mut F,
    out: &mut S,
    err: &mut E,
) -> Status
    ensures { CarriesOut (λ extent. IsZonedReport extent (tables_in table.now) zone.now moment file.now) (IsZonedInput zone.now file.now)
        (outside (F.state files.old) (S.state out.old) (E.state err.old))
        (outside (F.state files.new) (S.state out.new) (E.state err.new)) result }
{
    match zone_input(alloc, files, zone) {
        Ok(zone) => predict_file(alloc, table, &zone, moment, file, files, out, err),
        Err(fault) => say_input_fault(err, told_as(alloc, zone, fault)),
    }
}

// Carries it out with this timetable in this zone.
fn predict_file<F: Files, S: Sink, E: Sink>(
    alloc: Global,
    table: &Timetable,
    zone: &Zone,
    moment: u64,
    file: &str,
    files: &mut F,
    out: &mut S,
    err: &mut E,
) -> Status
    ensures { CarriesOut (λ extent held. IsSnapshotReport extent (tables_in table.now) (zone_of zone.now) moment (snapshot_in (get held file.now)))
        (Contains (file.now ∷ []))
        (outside (F.state files.old) (S.state out.old) (E.state err.old))
        (outside (F.state files.new) (S.state out.new) (E.state err.new)) result }
{
    match write_report(alloc, table, zone, moment, file, files, out) {
        Ok(status) => status,
        Err(fault) => say_fault(err, fault, file),
    }
}

// Writes the table of the snapshot in a file, or the line of one that is refused.
fn write_report<F: Files, S: Sink>(
    alloc: Global,
    table: &Timetable,
    zone: &Zone,
    moment: u64,
    file: &str,
    files: &mut F,
    out: &mut S,
) -> Result<Status, Fault>
    ensures part { IfSome (contents_told (F.state files.old).told) (λ held. WritesPart
        (λ extent. IsSnapshotReport extent (tables_in table.now) (zone_of zone.now) moment (snapshot_in (get held file.now)))
        (S.state out.old).written (S.state out.new).written) }
    ensures whole { IfSome (contents_told (F.state files.old).told) (λ held. IfOk result (WritesWhole
        (λ extent. IsSnapshotReport extent (tables_in table.now) (zone_of zone.now) moment (snapshot_in (get held file.now)))
        (S.state out.old).written (S.state out.new).written)) }
    ensures carried_out { IfOk result IsCarriedOut }
    ensures asked { IfSome (F.state files.new).asked (λ last. last ≡ file.now) }
    ensures read { IsErrOf result Fault.Read → Rose (F.state files.old).faults (F.state files.new).faults }
    ensures write { IsErrOf result Fault.Write → Rose (S.state out.old).faults (S.state out.new).faults }
{
    match read_kept(alloc, files, file, None)? {
        Ok(kept) => {
            put_table(alloc, table, zone, moment, &kept, out)?;
            Ok(Status::Clean)
        }
        Err(refusal) => put_refused(alloc, &refusal, out),
    }
}

// Writes the header row, and the rows of the entities of a snapshot.
fn put_table<S: Sink>(
    alloc: Global,
    table: &Timetable,
    zone: &Zone,
    moment: u64,
    kept: &Kept,
    out: &mut S,
) -> Result<(), Fault>
    ensures part { WritesPart (λ extent. IsTable extent (tables_in table.now) (zone_of zone.now) moment (entities_of kept.now))
        (S.state out.old).written (S.state out.new).written }
    ensures whole { OnOk result (WritesWhole (λ extent. IsTable extent (tables_in table.now) (zone_of zone.now) moment (entities_of kept.now))
        (S.state out.old).written (S.state out.new).written Status.Clean) }
    ensures not_read { IsErrOf result Fault.Read → ⊥ }
    ensures write { IsErrOf result Fault.Write → Rose (S.state out.old).faults (S.state out.new).faults }
{
    let head = prediction_head(alloc)?;
    put_all(out, &head)?;
    put_entities(alloc, table, zone, moment, kept, out)
}

// Writes the rows of the entities of a snapshot, each of which is decoded for its own rows alone.
fn put_entities<S: Sink>(
    alloc: Global,
    table: &Timetable,
    zone: &Zone,
    moment: u64,
    kept: &Kept,
    out: &mut S,
) -> Result<(), Fault>
    ensures part { WritesTexts (tables_in table.now) (zone_of zone.now) moment (entities_of kept.now)
        (S.state out.old).written (S.state out.new).written }
    ensures whole { OnOk result (WritesAllTexts (tables_in table.now) (zone_of zone.now) moment (entities_of kept.now)
        (S.state out.old).written (S.state out.new).written) }
    ensures not_read { IsErrOf result Fault.Read → ⊥ }
    ensures later { (S.state out.old).faults ≤ (S.state out.new).faults }
    ensures write { IsErrOf result Fault.Write → Rose (S.state out.old).faults (S.state out.new).faults }
{
    let mut counts = BTreeMap::new(alloc);
    for place in 0..kept.len() {
        let entity = entity_at::<Brand>(alloc, kept, place, Blank::new(1))?;
        let occurrence = count_one(alloc, &mut counts, entity.id.as_str())?;
        let rows = entity_rows(alloc, table, zone, moment, occurrence, &entity)?;
        put_all(out, &rows)?;
    }
    Ok(())
}

// The entity that has this number in a snapshot. What decoding it counts is of no account here.
fn entity_at<L: Ledger>(
    alloc: Global,
    kept: &Kept,
    place: usize,
    blank: Blank,
) -> Result<Entity, AllocError>
    requires within { place < length (entity_payloads kept.now) }
    requires name { blank.name ≡ L.name }
    requires parts { blank.parts ≡ L.parts }
    requires one { blank.parts ≡ 1 }
    ensures { IfOk result (λ entity. slice_get (entities_of kept.now) place ≡ Some (entity_value entity)) }
{
    decode_entity(alloc, kept.entity(place), &mut Steps::<L>::new(blank))
}

// The rows of an entity.
fn entity_rows(
    alloc: Global,
    table: &Timetable,
    zone: &Zone,
    moment: u64,
    occurrence: u32,
    entity: &Entity,
) -> Result<Vec<u8>, AllocError>
    ensures { IfOk result (λ rows. AreUpdateRows (tables_in table.now) (zone_of zone.now) moment entity.now.id occurrence entity.now.trip_update rows.items) }
{
    match &entity.trip_update {
        Some(update) => update_rows(
            alloc,
            table,
            zone,
            moment,
            entity.id.as_str(),
            occurrence,
            update,
        ),
        None => Ok(Vec::new(alloc)),
    }
}

// The rows of a trip update.
fn update_rows(
    alloc: Global,
    table: &Timetable,
    zone: &Zone,
    moment: u64,
    id: &str,
    occurrence: u32,
    update: &TripUpdate,
) -> Result<Vec<u8>, AllocError>
    ensures { IfOk result (λ rows. AreUpdateRows (tables_in table.now) (zone_of zone.now) moment id.now occurrence (Some update.now) rows.items) }
{
    if update.stop_time_update.as_slice().len() > u32::MAX as usize {
        return Err(AllocError);
    }
    let predictions = Resolver::new(table, zone).predict(alloc, update, moment)?;
    prediction_rows(alloc, id, occurrence, update, &predictions)
}

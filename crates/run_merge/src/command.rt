//! The command `merge`.
ghost use Rattle.std.specs.Prelude.{◌≡◌, ◌≤◌, ℕ, List, [], map, length, Contains};
ghost use Rattle.rt_outside.specs.Store.{FilesState};
ghost use Rattle.feed_values.specs.Snapshot.{snapshot_value};
ghost use Rattle.feed_merge.specs.Union.{feed_limit, united};
ghost use Rattle.run_base.specs.Carried.{CarriesOut, exactly};
ghost use Rattle.run_base.specs.Faults.{IsCarriedOut};
ghost use Rattle.run_base.specs.Outside.{outside};
ghost use Rattle.run_merge.specs.Gathering.{gathered_report};
ghost use Rattle.run_merge.specs.Merged.{merge_report, union_report, written};

use crate::gathered::Gathered;
use crate::reading::read_all;
use feed_merge::{MergeFault, merged_bytes};
use feed_stream::Kept;
use feed_values::{Items, Text};
use rt_outside::{Files, Sink, put_all};
use run_base::{Fault, Status, say, say_fault, say_input_fault, say_memory};
use std::alloc::Global;

/// Carries out `merge` on the files of these names, each the snapshot of a feed: writes the canonical bytes of their union.
///
/// Where some are refused, the lines of these are all that is written.
pub fn merge<F: Files, S: Sink, E: Sink>(
    alloc: Global,
    names: &Items<Text>,
    files: &mut F,
    out: &mut S,
    err: &mut E,
) -> Status
    requires { length names.now ≤ feed_limit }
    ensures { CarriesOut (exactly (merge_report names.now)) (Contains names.now)
        (outside (F.state files.old) (S.state out.old) (E.state err.old))
        (outside (F.state files.new) (S.state out.new) (E.state err.new)) result }
{
    match read_all(alloc, names, files) {
        Ok(gathered) => write_gathered(alloc, &gathered, out, err),
        Err(fault) => say_input_fault(err, fault),
    }
}

// Writes the lines of the refused snapshots, or where there are none the union of the others.
fn write_gathered<S: Sink, E: Sink>(
    alloc: Global,
    gathered: &Gathered,
    out: &mut S,
    err: &mut E,
) -> Status
    requires few { length gathered.now.feeds ≤ feed_limit }
    ensures { (files : FilesState) → CarriesOut (exactly (λ held. gathered_report gathered.now)) (λ name. ⊥)
        (outside files (S.state out.old) (E.state err.old))
        (outside files (S.state out.new) (E.state err.new)) result }
{
    if gathered.refused.is_empty() {
        write_union(alloc, &gathered.feeds, out, err)
    } else {
        write_bytes(&gathered.refused, Status::Found, out, err)
    }
}

// Writes the union of feeds.
fn write_union<S: Sink, E: Sink>(
    alloc: Global,
    feeds: &Items<Kept>,
    out: &mut S,
    err: &mut E,
) -> Status
    requires few { length feeds.now ≤ feed_limit }
    ensures { (files : FilesState) → CarriesOut (exactly (λ held. union_report (united (map snapshot_value feeds.now)))) (λ name. ⊥)
        (outside files (S.state out.old) (E.state err.old))
        (outside files (S.state out.new) (E.state err.new)) result }
{
    match merged_bytes(alloc, feeds) {
        Ok(bytes) => write_bytes(&bytes, Status::Clean, out, err),
        Err(MergeFault::TooLarge) => say(err, b"refused: merged: too large\n", Status::Refused),
        Err(MergeFault::Memory) => say_memory(err),
    }
}

// Writes bytes, and answers what they mean.
fn write_bytes<S: Sink, E: Sink>(bytes: &[u8], meant: Status, out: &mut S, err: &mut E) -> Status
    requires { IsCarriedOut meant }
    ensures { (files : FilesState) → CarriesOut (exactly (λ held. written bytes.now meant)) (λ name. ⊥)
        (outside files (S.state out.old) (E.state err.old))
        (outside files (S.state out.new) (E.state err.new)) result }
{
    match put_all(out, bytes) {
        Ok(()) => meant,
        Err(failed) => say_fault(err, Fault::from(failed), ""),
    }
}

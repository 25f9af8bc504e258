//! The whole of what the program does.
ghost use Rattle.std.specs.Prelude.{◌≡◌, ◌⊎◌, Some, None, map, string_bytes};
ghost use Rattle.rt_outside.specs.Causes.{Rose};
ghost use Rattle.rt_outside.specs.Store.{contents_told};
ghost use Rattle.run_words.specs.Words.{request, NamesFiles};
ghost use Rattle.run_base.specs.Carried.{CarriesOut, TellsReport};
ghost use Rattle.run_base.specs.Counted.{IsCounted, counters};
ghost use Rattle.run_base.specs.Faults.{TellsOneOf};
ghost use Rattle.run_base.specs.Outside.{outside};
ghost use Rattle.rt_run.specs.Counted.{JudgesNothing, run_work};
ghost use Rattle.rt_run.specs.Reads.{IsRunText, IsWithoutRequest, Reads};
ghost use Rattle.rt_run.specs.Reported.{IsAsked, IsReport};

use rt_outside::{Files, Sink, Steps};
use run_alerts::alerts;
use run_base::{Status, say, say_memory};
use run_check::check;
use run_follow::follow;
use run_json::{encode, show};
use run_merge::merge;
use run_predict::predict;
use run_trial::trial;
use run_verify::verify;
use run_words::{Request, words_of};
use std::alloc::Global;
use std::sync::ledger::Ledger;

const USAGE: &[u8] = b"usage: rt_command check [--timetable DIR] [--now N] FILE...
       rt_command follow [--timetable DIR] --list FILE
       rt_command predict --timetable DIR (--zone-rule TEXT | --zone-file FILE) [--now N] FILE
       rt_command show FILE
       rt_command encode FILE
       rt_command trial N
       rt_command verify REPORT
       rt_command merge FILE...
       rt_command alerts [--now N] (--agency ID | --route ID | --trip ID | --stop ID) FILE...
";

/// Carries out the request of the words after the program's name, at the moment `now`, as POSIX
/// time in seconds.
///
/// Want of memory is the one answer that may come at any time. `decodes` ticks once for each entity that is decoded to be judged, and
/// `tests` once for each rule that is tested: both at `check`, `follow`, `trial` and `alerts` alone.
pub fn run<F: Files, S: Sink, E: Sink, D: Ledger, T: Ledger>(
    alloc: Global,
    words: &[String],
    now: u64,
    files: &mut F,
    out: &mut S,
    err: &mut E,
    decodes: &mut Steps<D>,
    tests: &mut Steps<T>,
) -> Status
    // A prefix of a report on the words was written to the output. Where the answer is one that a report may have, all of it was,
    // and the answer and what was written to the error stream are the report's.
    ensures report { TellsReport (IsReport (map string_bytes words.now) now)
        (outside (F.state files.old) (S.state out.old) (E.state err.old))
        (outside (F.state files.new) (S.state out.new) (E.state err.new)) result }

    // The words give no request exactly where the answer is Usage, but for want of memory and a failed write.
    ensures usage { result ≡ Status.Usage → request (map string_bytes words.now) ≡ None }
    ensures no_request { request (map string_bytes words.now) ≡ None → IsWithoutRequest result }

    // A fault comes only where a count of faults shows it.
    ensures read_fault { result ≡ Status.ReadFault
        → Rose (F.state files.old).faults (F.state files.new).faults }
    ensures write_fault { result ≡ Status.WriteFault
        → Rose (S.state out.old).faults (S.state out.new).faults ⊎ Rose (E.state err.old).faults (E.state err.new).faults }

    // Each fault is told on the error stream.
    ensures told { let reads = Reads (request (map string_bytes words.now)) (contents_told (F.state files.old).told) in
        TellsOneOf (IsRunText reads) reads (F.state files.new).asked (E.state err.old) (E.state err.new) result }

    // The counters rise by exactly the work of the accepted snapshots where the request is carried out, and by no more in any case.
    ensures counted { IsCounted (run_work (request (map string_bytes words.now)) now) (contents_told (F.state files.old).told)
        (counters decodes.old tests.old) (counters decodes.new tests.new) result }

    // They stay where no snapshot is judged.
    ensures rested { JudgesNothing (request (map string_bytes words.now)) → counters decodes.new tests.new ≡ counters decodes.old tests.old }
{
    match words_of(alloc, words) {
        Err(_) => say_memory(err),
        Ok(None) => say(err, USAGE, Status::Usage),
        Ok(Some(request)) => carry_out(alloc, &request, now, files, out, err, decodes, tests),
    }
}

// Carries out a request.
fn carry_out<F: Files, S: Sink, E: Sink, D: Ledger, T: Ledger>(
    alloc: Global,
    request: &Request,
    now: u64,
    files: &mut F,
    out: &mut S,
    err: &mut E,
    decodes: &mut Steps<D>,
    tests: &mut Steps<T>,
) -> Status
    requires { NamesFiles request.now }
    ensures carried { CarriesOut (IsAsked request.now now) (Reads (Some request.now) (contents_told (F.state files.old).told))
        (outside (F.state files.old) (S.state out.old) (E.state err.old))
        (outside (F.state files.new) (S.state out.new) (E.state err.new)) result }
    ensures counted { IsCounted (run_work (Some request.now) now) (contents_told (F.state files.old).told)
        (counters decodes.old tests.old) (counters decodes.new tests.new) result }
    ensures rested { JudgesNothing (Some request.now) → counters decodes.new tests.new ≡ counters decodes.old tests.old }
{
    match request {
        Request::Check {
            folder,
            now: moment,
            files: names,
        } => {
            let moment = moment.unwrap_or(now);
            let folder = folder.as_ref();
            check(
                alloc, moment, folder, names, files, out, err, decodes, tests,
            )
        }
        Request::Follow { folder, list } => {
            let folder = folder.as_ref();
            let list = list.as_str();
            follow(alloc, folder, list, files, out, err, decodes, tests)
        }
        Request::Trial { seed } => trial(alloc, *seed, out, err, decodes, tests),
        Request::Alerts {
            now: moment,
            query,
            files: names,
        } => {
            let moment = moment.unwrap_or(now);
            alerts(alloc, moment, query, names, files, out, err, decodes, tests)
        }
        _ => carry_out_uncounted(alloc, request, now, files, out, err),
    }
}

// Carries out a request that judges no snapshot.
fn carry_out_uncounted<F: Files, S: Sink, E: Sink>(
    alloc: Global,
    request: &Request,
    now: u64,
    files: &mut F,
    out: &mut S,
    err: &mut E,
) -> Status
    requires names { NamesFiles request.now }
    requires judges_nothing { JudgesNothing (Some request.now) }
    ensures { CarriesOut (IsAsked request.now now) (Reads (Some request.now) (contents_told (F.state files.old).told))
        (outside (F.state files.old) (S.state out.old) (E.state err.old))
        (outside (F.state files.new) (S.state out.new) (E.state err.new)) result }
{
    match request {
        Request::Predict {
            folder,
            zone,
            now: moment,
            file,
        } => {
            let moment = moment.unwrap_or(now);
            let folder = folder.as_str();
            predict(alloc, folder, zone, moment, file.as_str(), files, out, err)
        }
        Request::Show { file } => show(alloc, file.as_str(), files, out, err),
        Request::Encode { file } => encode(alloc, file.as_str(), files, out, err),
        Request::Merge { files: names } => merge(alloc, names, files, out, err),
        Request::Verify { file } => verify(alloc, file.as_str(), files, out, err),
        Request::Check { .. }
        | Request::Follow { .. }
        | Request::Trial { .. }
        | Request::Alerts { .. } => unreachable!(),
    }
}

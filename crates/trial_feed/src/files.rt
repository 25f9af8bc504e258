//! The timetable of the trial, as files in memory.
ghost use Rattle.std.specs.Prelude.{◌≡◌, ◌++◌, IfOk, None, string_bytes};
ghost use Rattle.trial_feed.specs.Files.{line_of, trip_row, trip_rows, trial_contents};

use rt_outside::QuietFiles;
use std::alloc::{AllocError, Global};

/// The folder that the timetable lies in.
pub const FOLDER: &str = "trial";

/// How many trips the timetable has: one fewer than a snapshot has entities, so that the last entity's trip isn't known.
pub const TRIPS: usize = 1999;

/// The five files of the timetable, in the folder `trial`. None is open, and none was asked for.
pub fn timetable_files(alloc: Global) -> Result<QuietFiles, AllocError>
    ensures { IfOk result (λ files. files ≡ record { contents = trial_contents; place = None; asked = None }) }
{
    let trips = trip_rows(alloc, "route_id,service_id,trip_id", "R1,WK,", "", TRIPS)?;
    let stop_times = trip_rows(
        alloc,
        "trip_id,arrival_time,departure_time,stop_id,stop_sequence",
        "",
        ",08:00:00,08:00:00,S1,1",
        TRIPS,
    )?;
    let mut files = QuietFiles::new(alloc);
    files.add("trial/stop_times.txt", stop_times.as_str().as_bytes())?;
    files.add("trial/trips.txt", trips.as_str().as_bytes())?;
    files.add("trial/routes.txt", b"route_id\nR1\n")?;
    files.add("trial/stops.txt", b"stop_id\nS1\n")?;
    files.add("trial/agency.txt", b"agency_id\nA1\n")?;
    Ok(files)
}

/// A table with a row for each of so many trips.

fn trip_rows(
    alloc: Global,
    header: &str,
    before: &str,
    after: &str,
    count: usize,
) -> Result<String, AllocError>
    ensures { IfOk result (λ text. string_bytes text ≡ line_of header.now ++ trip_rows before.now after.now count) }
{
    let mut text = format!(in alloc; "{header}\n")?;
    for k in 0..count {
        let row = trip_row(alloc, before, after, k)?;
        text.push_str(row.as_str())?;
    }
    Ok(text)
}

/// The row of trip `k`, whose id stands between two texts.
fn trip_row(alloc: Global, before: &str, after: &str, k: usize) -> Result<String, AllocError>
    ensures { IfOk result (λ row. string_bytes row ≡ trip_row before.now after.now k) }
{
    let row = format!(in alloc; "{before}T{k}{after}\n")?;
    Ok(row)
}

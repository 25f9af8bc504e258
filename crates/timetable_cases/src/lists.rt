//! Asks of a list of snapshots and timetables.

use crate::held::Held;
use cases::{say, word};
use feed_list::{ListFault, ListRow, SnapshotRow, read_list};
use feed_values::Items;
use rt_outside::Files;
use std::alloc::{AllocError, Global};

fn say_snapshot(alloc: Global, row: &SnapshotRow, out: &mut Vec<u8>) -> Result<(), AllocError> {
    let path = row.path.as_str();
    let line = format!(in alloc; "{} {} {path}", row.feed, row.moment)?;
    say(out, line.as_str())
}

fn say_row(alloc: Global, row: &ListRow, out: &mut Vec<u8>) -> Result<(), AllocError> {
    match row {
        ListRow::Snapshot(row) => say_snapshot(alloc, row, out),
        ListRow::Timetable(folder) => {
            let line = format!(in alloc; "timetable {}", folder.as_str())?;
            say(out, line.as_str())
        }
    }
}

fn say_rows(alloc: Global, rows: &[ListRow], out: &mut Vec<u8>) -> Result<(), AllocError> {
    say(out, format!(in alloc; "{} rows", rows.len())?.as_str())?;
    for row in rows {
        say_row(alloc, row, out)?;
    }
    Ok(())
}

// The rows of a list in files that are given up then.
fn rows<F: Files + Drop>(
    alloc: Global,
    mut files: F,
    name: &str,
) -> Result<Items<ListRow>, ListFault> {
    read_list(alloc, &mut files, name)
}

// The rows of a list, or its first fault.
fn say_list(alloc: Global, held: &Held, name: &str, out: &mut Vec<u8>) -> Result<(), AllocError> {
    match rows(alloc, held.files()?, name) {
        Ok(list) => say_rows(alloc, list.as_slice(), out),
        Err(fault) => say(out, format!(in alloc; "{fault:?}")?.as_str()),
    }
}

// What is told of the first fault of a list.
fn say_told(alloc: Global, held: &Held, name: &str, out: &mut Vec<u8>) -> Result<(), AllocError> {
    match rows(alloc, held.files()?, name) {
        Ok(_) => say(out, "no fault"),
        Err(fault) => say(out, fault.text(alloc)?.as_str()),
    }
}

/// Answers `list NAME` and `told NAME`.
pub fn answer(
    alloc: Global,
    held: &Held,
    words: &[String],
    out: &mut Vec<u8>,
) -> Result<bool, AllocError> {
    match word(words, 0) {
        "list" => say_list(alloc, held, word(words, 1), out)?,
        "told" => say_told(alloc, held, word(words, 1), out)?,
        _ => return Ok(false),
    }
    Ok(true)
}

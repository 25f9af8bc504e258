//! The lines of a timetable that takes the place of another while feeds are followed.
ghost use Rattle.std.specs.Prelude.{◌≡◌, IfOk};
ghost use Rattle.serde_json.specs.View.{view};
ghost use Rattle.snapshot_lines.specs.Lines.{line_of, exchanged, refused_timetable};

use crate::line::line_of;
use serde_json::{Value, json};
use std::alloc::{AllocError, Global};

/// What the line of an accepted timetable says.
#[derive(Clone, Copy, Debug)]
pub struct Exchanged {
    /// Its row of the list, from 0.
    pub row: u64,
    /// How many entities the last snapshots of all feeds have.
    pub entities: u64,
    /// For how many of these it doesn't agree with the timetable before it, so that they were tested again.
    pub retested: u64,
}

fn exchanged_value(alloc: Global, it: &Exchanged) -> Result<Value, AllocError>
    ensures { IfOk result (λ value. view value ≡ exchanged it.now) }
{
    json!(in alloc; {
        "entities": it.entities,
        "line": "timetable",
        "retested": it.retested,
        "row": it.row,
    })
}

/// The line of an accepted timetable.
pub fn exchanged_line(alloc: Global, it: &Exchanged) -> Result<Vec<u8>, AllocError>
    ensures { IfOk result (λ bytes. bytes.items ≡ line_of (exchanged it.now)) }
{
    let value = exchanged_value(alloc, it)?;
    line_of(alloc, &value)
}

fn refused_timetable_value(alloc: Global, row: u64, why: &str) -> Result<Value, AllocError>
    ensures { IfOk result (λ value. view value ≡ refused_timetable row why.now) }
{
    json!(in alloc; {
        "line": "refused_timetable",
        "row": row,
        "text": why,
    })
}

/// The line of a refused timetable, in the list row `row` from 0, and why it is refused: the file, and what is wrong there.
pub fn refused_timetable_line(alloc: Global, row: u64, why: &str) -> Result<Vec<u8>, AllocError>
    ensures { IfOk result (λ bytes. bytes.items ≡ line_of (refused_timetable row why.now)) }
{
    let value = refused_timetable_value(alloc, row, why)?;
    line_of(alloc, &value)
}

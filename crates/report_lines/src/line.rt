//! What a line says.
ghost use Rattle.std.specs.Prelude.{◌≡◌, ◌≤◌, IfOk, length, option_map};
ghost use Rattle.serde_json.specs.View.{view};
ghost use Rattle.report_lines.specs.Lines.{exchanged_line, line_in, line_limit, line_said, named_line, or_foreign, refused_line, refused_timetable_line, rule_line, tree_of};

use crate::line_name::LineName;
use crate::members::{count_at, text_at};
use crate::telling::{rule_at, telling_of};
use feed_values::Text;
use rule_table::RuleId;
use rule_tally::Telling;
use serde_json::Value;
use std::alloc::{AllocError, Global};

/// The most bytes that a line of a report has here.
pub const LINE_LIMIT: usize = 1_048_576;

/// Why a snapshot is refused, and where: which row it has, and at which byte its fault stands.
#[derive(Drop)]
pub struct RefusedLine {
    pub row: u64,
    pub at: u64,
    pub reason: Text,
}

/// A timetable of a list that is refused: which row it has, and which file of it has which fault.
#[derive(Drop)]
pub struct RefusedTimetable {
    pub row: u64,
    pub text: Text,
}

/// What a line of a report says, as far as a summary asks.
#[derive(Drop)]
pub enum ReportLine {
    /// A snapshot is accepted, and judged at this moment, in POSIX seconds; none where the line tells no whole number of 64 bits.
    Accepted(Option<u64>),
    Refused(RefusedLine),
    /// The timetable of this row of the list is in force from here on.
    Exchanged(u64),
    RefusedTimetable(RefusedTimetable),
    /// It tells this of a rule.
    Told(RuleId, Telling),
    /// It sums up a trial.
    Trial,
    /// It is no line of a report.
    Foreign,
}

/// The tree of a text that is UTF-8 and JSON.
pub fn tree_of(alloc: Global, line: &[u8]) -> Result<Option<Value>, AllocError>
    ensures { IfOk result (λ tree. option_map view tree ≡ tree_of line.now) }
{
    match Value::from_slice(alloc, line) {
        Ok(tree) => Ok(Some(tree)),
        Err(error) => {
            if error.is_memory() {
                Err(AllocError)
            } else {
                Ok(None)
            }
        }
    }
}

/// What a line says, which is given without its line feed.
pub fn read_line(alloc: Global, line: &[u8]) -> Result<ReportLine, AllocError>
    ensures { IfOk result (λ said. said ≡ line_said line.now) }
{
    if line.len() > LINE_LIMIT {
        return Ok(ReportLine::Foreign);
    }
    let Some(tree) = tree_of(alloc, line)? else {
        return Ok(ReportLine::Foreign);
    };
    Ok(or_foreign(line_in(alloc, &tree)?))
}

fn or_foreign(line: Option<ReportLine>) -> ReportLine
    ensures { result ≡ or_foreign line }
{
    match line {
        Some(line) => line,
        None => ReportLine::Foreign,
    }
}

// What a tree says as a line.
fn line_in(alloc: Global, value: &Value) -> Result<Option<ReportLine>, AllocError>
    ensures { IfOk result (λ line. line ≡ line_in (view value.now)) }
{
    let Some(text) = text_at(value, "line") else {
        return Ok(None);
    };
    let Some(name) = LineName::named(text) else {
        return Ok(None);
    };
    named_line(alloc, value, name)
}

// What it says as a line of this kind.
fn named_line(
    alloc: Global,
    value: &Value,
    name: LineName,
) -> Result<Option<ReportLine>, AllocError>
    ensures { IfOk result (λ line. line ≡ named_line (view value.now) name) }
{
    match name {
        LineName::Accepted => Ok(Some(ReportLine::Accepted(count_at(value, "moment")))),
        LineName::Refused => refused_line(alloc, value),
        LineName::Timetable => Ok(exchanged_line(value)),
        LineName::RefusedTimetable => refused_timetable_line(alloc, value),
        LineName::Trial => Ok(Some(ReportLine::Trial)),
        _ => rule_line(alloc, name, value),
    }
}

fn refused_line(alloc: Global, value: &Value) -> Result<Option<ReportLine>, AllocError>
    ensures { IfOk result (λ line. line ≡ refused_line (view value.now)) }
{
    let Some(row) = count_at(value, "row") else {
        return Ok(None);
    };
    let Some(at) = count_at(value, "at") else {
        return Ok(None);
    };
    let Some(reason) = text_at(value, "reason") else {
        return Ok(None);
    };
    Ok(Some(ReportLine::Refused(RefusedLine {
        row,
        at,
        reason: Text::of(alloc, reason)?,
    })))
}

fn exchanged_line(value: &Value) -> Option<ReportLine>
    ensures { result ≡ exchanged_line (view value.now) }
{
    let row = count_at(value, "row")?;
    Some(ReportLine::Exchanged(row))
}

fn refused_timetable_line(alloc: Global, value: &Value) -> Result<Option<ReportLine>, AllocError>
    ensures { IfOk result (λ line. line ≡ refused_timetable_line (view value.now)) }
{
    let Some(row) = count_at(value, "row") else {
        return Ok(None);
    };
    let Some(text) = text_at(value, "text") else {
        return Ok(None);
    };
    Ok(Some(ReportLine::RefusedTimetable(RefusedTimetable {
        row,
        text: Text::of(alloc, text)?,
    })))
}

// What it says of a rule.
fn rule_line(alloc: Global, name: LineName, value: &Value) -> Result<Option<ReportLine>, AllocError>
    ensures { IfOk result (λ line. line ≡ rule_line name (view value.now)) }
{
    let Some(rule) = rule_at(value) else {
        return Ok(None);
    };
    match telling_of(alloc, name, value)? {
        Some(telling) => Ok(Some(ReportLine::Told(rule, telling))),
        None => Ok(None),
    }
}

//! The screen.

use crate::facts::push_sentence;
use crate::grouped::{push_counted, push_grouped};
use crate::place::{is_on_header, push_place};
use crate::ranked::{findings_of, is_warning, ranked};
use crate::titles::{meaning_of, title_of};
use crate::visible::push_visible;
use crate::wrapped::push_wrapped;
use feed_values::Text;
use report_counts::Counts;
use report_lines::{RefusedLine, RefusedTimetable, count_at, tree_of};
use rule_table::RuleId;
use rule_tally::{Behind, Tally};
use serde_json::Value;
use std::alloc::{AllocError, Global};
use std::fmt::Write;

/// What a person reads of these counts. `names` are the names of the snapshots' files, by row.
pub fn screen_of(alloc: Global, counts: &Counts, names: &[Text]) -> Result<String, AllocError> {
    if counts.lines == 0 {
        return String::from_str(alloc, "No line came: this is no report.\n");
    }
    let mut out = String::new(alloc);
    push_snapshots(alloc, &mut out, counts, names)?;
    push_timetables(alloc, &mut out, counts)?;
    push_others(alloc, &mut out, counts)?;
    push_sum(alloc, &mut out, counts)?;
    for rule in &ranked(alloc, counts)? {
        if let Some(tally) = counts.rules.get(*rule) {
            out.push_str("\n")?;
            push_rule(alloc, &mut out, *rule, tally)?;
        }
    }
    Ok(out)
}

fn push_snapshots(
    alloc: Global,
    out: &mut String,
    counts: &Counts,
    names: &[Text],
) -> Result<(), AllocError> {
    push_counted(alloc, out, counts.accepted, "snapshot", "snapshots")?;
    out.push_str(" accepted, ")?;
    push_grouped(alloc, out, counts.refused)?;
    out.push_str(" refused.\n")?;
    for refusal in counts.refusals.as_slice() {
        push_refusal(alloc, out, refusal, names)?;
    }
    push_more(alloc, out, counts.refused, counts.refusals.as_slice().len())
}

fn push_refusal(
    alloc: Global,
    out: &mut String,
    refusal: &RefusedLine,
    names: &[Text],
) -> Result<(), AllocError> {
    let mut text = String::new(alloc);
    text.push_str("Refused: row ")?;
    push_grouped(alloc, &mut text, refusal.row)?;
    if let Some(name) = name_of(names, refusal.row) {
        text.push_str(", ")?;
        push_visible(&mut text, name, 70)?;
    }
    text.push_str(": ")?;
    push_visible(&mut text, refusal.reason.as_str(), 40)?;
    text.push_str(" at byte ")?;
    push_grouped(alloc, &mut text, refusal.at)?;
    text.push_str(".")?;
    push_wrapped(out, "    ", text.as_str())
}

// Timetables that were exchanged, or refused, where there are any.
fn push_timetables(alloc: Global, out: &mut String, counts: &Counts) -> Result<(), AllocError> {
    if counts.exchanged == 0 && counts.refused_timetables == 0 {
        return Ok(());
    }
    push_counted(alloc, out, counts.exchanged, "timetable", "timetables")?;
    out.push_str(" exchanged, ")?;
    push_grouped(alloc, out, counts.refused_timetables)?;
    out.push_str(" refused.\n")?;
    let refusals = counts.timetable_refusals.as_slice();
    for refusal in refusals {
        push_refused_timetable(alloc, out, refusal)?;
    }
    push_more(alloc, out, counts.refused_timetables, refusals.len())
}

fn push_refused_timetable(
    alloc: Global,
    out: &mut String,
    refusal: &RefusedTimetable,
) -> Result<(), AllocError> {
    let mut text = String::new(alloc);
    text.push_str("Refused: row ")?;
    push_grouped(alloc, &mut text, refusal.row)?;
    text.push_str(",")?;
    push_words(&mut text, refusal.text.as_str())?;
    text.push_str(".")?;
    push_wrapped(out, "    ", text.as_str())
}

// The first words of a text, a blank before each, of which none is wider than a line.
fn push_words(out: &mut String, text: &str) -> Result<(), AllocError> {
    let mut left: usize = 24;
    for word in text.split(' ') {
        if left == 0 {
            return out.push_str(" ...");
        }
        left -= 1;
        out.push_str(" ")?;
        push_visible(out, word, 70)?;
    }
    Ok(())
}

fn name_of(names: &[Text], row: u64) -> Option<&str> {
    let name = names.get(usize::try_from(row).ok()?)?;
    Some(name.as_str())
}

// That there are more than are shown.
fn push_more(alloc: Global, out: &mut String, all: u64, shown: usize) -> Result<(), AllocError> {
    let more = all.saturating_sub(shown as u64);
    if more > 0 {
        out.push_str("    ... and ")?;
        push_grouped(alloc, out, more)?;
        out.push_str(" more.\n")?;
    }
    Ok(())
}

// Lines that are no report's, and ignored ones.
fn push_others(alloc: Global, out: &mut String, counts: &Counts) -> Result<(), AllocError> {
    if counts.foreign > 0 {
        push_counted(alloc, out, counts.foreign, "line is", "lines are")?;
        out.push_str(" no report's:\n")?;
        let mut text = String::new(alloc);
        for number in counts.strangers.as_slice() {
            write!(text, "line {number}, ")?;
        }
        push_wrapped(out, "    ", text.as_str().trim_end_matches(", "))?;
        push_more(
            alloc,
            out,
            counts.foreign,
            counts.strangers.as_slice().len(),
        )?;
    }
    if counts.ignored > 0 {
        push_counted(alloc, out, counts.ignored, "line", "lines")?;
        out.push_str(" of ignored rules.\n")?;
    }
    Ok(())
}

fn push_sum(alloc: Global, out: &mut String, counts: &Counts) -> Result<(), AllocError> {
    let errors = findings_of(counts, false);
    let warnings = findings_of(counts, true);
    if errors == 0 && warnings == 0 {
        return out.push_str("No finding.\n");
    }
    push_counted(alloc, out, errors, "error", "errors")?;
    out.push_str(", ")?;
    push_counted(alloc, out, warnings, "warning", "warnings")?;
    out.push_str(".\n")
}

fn push_rule(
    alloc: Global,
    out: &mut String,
    rule: RuleId,
    tally: &Tally,
) -> Result<(), AllocError> {
    let level = if is_warning(rule) { "warning" } else { "error" };
    let name = rule.name();
    let title = title_of(rule);
    write!(out, "{name}  {level}  {title}\n")?;
    let mut numbers = String::new(alloc);
    push_numbers(alloc, &mut numbers, tally)?;
    push_wrapped(out, "    ", numbers.as_str())?;
    match &tally.first {
        Some(first) => match tree_of(alloc, first.line.as_slice())? {
            Some(finding) => push_first(alloc, out, rule, tally, first.behind, &finding),
            None => Ok(()),
        },
        None => push_wrapped(out, "    ", meaning_of(rule, false)),
    }
}

fn push_numbers(alloc: Global, out: &mut String, tally: &Tally) -> Result<(), AllocError> {
    push_counted(alloc, out, tally.findings, "finding", "findings")?;
    let opened = tally.entities.len() as u64;
    let entities = tally.stretches.saturating_add(opened);
    if entities > 0 {
        out.push_str(", ")?;
        push_counted(alloc, out, entities, "entity", "entities")?;
    }
    let places = tally.places.len() as u64;
    if places > 0 {
        out.push_str(", ")?;
        push_counted(alloc, out, places, "place", "places")?;
        out.push_str(", ")?;
        push_grouped(alloc, out, tally.places.marked() as u64)?;
        out.push_str(" standing")?;
    }
    Ok(())
}

fn push_first(
    alloc: Global,
    out: &mut String,
    rule: RuleId,
    tally: &Tally,
    behind: Behind,
    finding: &Value,
) -> Result<(), AllocError> {
    push_wrapped(out, "    ", meaning_of(rule, is_on_header(finding)))?;
    let mut text = String::new(alloc);
    text.push_str("First: ")?;
    push_place(&mut text, finding)?;
    if tally.places.len() > 0 {
        push_opening(&mut text, behind, finding)?;
    }
    text.push_str(": ")?;
    push_sentence(alloc, &mut text, finding)?;
    push_wrapped(out, "    ", text.as_str())
}

// Which snapshot opened it, or which timetable behind that one, and when the snapshot was taken.
fn push_opening(out: &mut String, behind: Behind, finding: &Value) -> Result<(), AllocError> {
    let since = count_at(finding, "since").unwrap_or(0);
    match behind.timetable {
        Some(row) => write!(
            out,
            ", opened by the timetable of row {row} behind snapshot {since}"
        )?,
        None => write!(out, ", opened by snapshot {since}")?,
    }
    match behind.moment {
        Some(moment) => write!(out, " at {moment}"),
        None => Ok(()),
    }
}

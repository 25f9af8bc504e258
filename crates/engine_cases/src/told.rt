//! What an engine says, in lines.

use cases::say;
use feed_values::{CellRef, Path};
use follow_engine::{Closed, Delta, Engine, Opened};
use rule_table::{Fact, Finding, Place, cell_of};
use std::alloc::{AllocError, Global};
use timetable_exchange::Exchange;

fn place_text(alloc: Global, place: &Place) -> Result<String, AllocError> {
    match place {
        Place::Head(feed, slot) => {
            let path = Path {
                slot: *slot,
                index: 0,
            };
            let path = path.text(alloc)?;
            format!(in alloc; "{feed} {path}")
        }
        Place::Entity(key, path) => {
            let path = path.text(alloc)?;
            let id = key.id.as_str();
            format!(in alloc; "{} {id} {} {path}", key.feed, key.occurrence)
        }
    }
}

fn cell_text(alloc: Global, cell: CellRef<'_>) -> Result<String, AllocError> {
    match cell {
        CellRef::Missing => String::from_str(alloc, " -"),
        CellRef::Number(number) => format!(in alloc; " {number}"),
        CellRef::Text(text) => format!(in alloc; " {text}"),
    }
}

fn facts_text(alloc: Global, facts: &[Fact]) -> Result<String, AllocError> {
    let mut text = String::new(alloc);
    for fact in facts {
        text.push_str(cell_text(alloc, cell_of(&fact.value))?.as_str())?;
    }
    Ok(text)
}

// A finding's rule and place, since when its rule stands there, and the values of its facts.
fn finding_text(alloc: Global, finding: &Finding, since: u64) -> Result<String, AllocError> {
    let rule = finding.rule().name();
    let place = place_text(alloc, finding.place())?;
    let facts = facts_text(alloc, finding.facts().as_slice())?;
    format!(in alloc; "{rule} {place} since {since}:{facts}")
}

fn say_opened(alloc: Global, opened: &[Opened], out: &mut Vec<u8>) -> Result<(), AllocError> {
    for one in opened {
        let finding = finding_text(alloc, &one.finding, one.since)?;
        say(out, format!(in alloc; "opened {finding}")?.as_str())?;
    }
    Ok(())
}

fn say_closed(alloc: Global, closed: &[Closed], out: &mut Vec<u8>) -> Result<(), AllocError> {
    for one in closed {
        let rule = one.rule.name();
        let place = place_text(alloc, &one.place)?;
        say(out, format!(in alloc; "closed {rule} {place}")?.as_str())?;
    }
    Ok(())
}

/// What a snapshot changed: its number and how many entities it has, how many are tested, paired, bounded and peaked, what opened and
/// what closed.
pub fn say_delta(alloc: Global, delta: &Delta, out: &mut Vec<u8>) -> Result<(), AllocError> {
    let entities = format!(in alloc; "{}: {} entities", delta.snapshot, delta.entities)?;
    let counts = format!(in alloc;
        "{entities}, {} tested, {} paired, {} bounded, {} peaked",
        delta.tested, delta.paired, delta.bounded, delta.peaked
    )?;
    say(out, counts.as_str())?;
    say_opened(alloc, delta.opened.as_slice(), out)?;
    say_closed(alloc, delta.closed.as_slice(), out)
}

/// What another timetable changed: how many entities were judged again of how many, what opened and what closed.
pub fn say_exchange(
    alloc: Global,
    exchange: &Exchange,
    out: &mut Vec<u8>,
) -> Result<(), AllocError> {
    let counts = format!(in alloc; "{} of {} retested", exchange.retested, exchange.entities)?;
    say(out, counts.as_str())?;
    say_opened(alloc, exchange.opened.as_slice(), out)?;
    say_closed(alloc, exchange.closed.as_slice(), out)
}

/// The findings of an engine in its order, or `none`.
pub fn say_findings(alloc: Global, engine: &Engine, out: &mut Vec<u8>) -> Result<(), AllocError> {
    let mut are_none = true;
    for (finding, since) in engine.findings() {
        are_none = false;
        say(out, finding_text(alloc, finding, since)?.as_str())?;
    }
    if are_none {
        return say(out, "none");
    }
    Ok(())
}

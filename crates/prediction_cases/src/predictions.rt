//! Asks of what is predicted.

use crate::keyed::{number_at, text_at};
use crate::updates::trip_update;
use cases::{say, word};
use feed_values::TripUpdate;
use prediction_table::{prediction_head, prediction_rows};
use propagation::{Predictions, Resolver, Source};
use std::alloc::{AllocError, Global};
use timetable::Timetable;
use trip_calendar::Zone;

/// How many updates of stops are too many.
const TOO_MANY: usize = 1_000_000;

// Where a delay comes from, and the delay.
fn say_delay(
    alloc: Global,
    source: Source,
    delay: Option<i128>,
    out: &mut Vec<u8>,
) -> Result<(), AllocError> {
    let mut line = match source {
        Source::Blank => String::from_str(alloc, "nothing")?,
        Source::Trip => String::from_str(alloc, "trip")?,
        Source::Update(index) => format!(in alloc; "{index}")?,
    };
    match delay {
        Some(delay) => line.push_str(format!(in alloc; " {delay}")?.as_str())?,
        None => line.push_str(" none")?,
    }
    say(out, line.as_str())
}

fn say_delays(
    alloc: Global,
    predictions: &Predictions,
    out: &mut Vec<u8>,
) -> Result<(), AllocError> {
    for row in predictions.rows() {
        say_delay(alloc, row.source, row.delay, out)?;
    }
    Ok(())
}

// What governs each position that the words behind the first one spell.
fn say_governing(
    alloc: Global,
    predictions: &Predictions,
    words: &[String],
    out: &mut Vec<u8>,
) -> Result<(), AllocError> {
    for spelled in words.iter().skip(1) {
        let Ok(position) = spelled.as_str().parse() else {
            return Ok(());
        };
        match predictions.governing(position) {
            Some(setter) => say_delay(alloc, setter.source, setter.delay, out)?,
            None => say(out, "none")?,
        }
    }
    Ok(())
}

fn say_rows(
    alloc: Global,
    update: &TripUpdate,
    predictions: &Predictions,
    words: &[String],
    out: &mut Vec<u8>,
) -> Result<(), AllocError> {
    let entity = text_at(words, "entity").unwrap_or("");
    let occurrence = number_at(words, "occurrence").unwrap_or(0);
    let rows = prediction_rows(alloc, entity, occurrence, update, predictions)?;
    out.extend_from_slice(&rows)
}

fn answer_update(
    alloc: Global,
    table: &Timetable,
    zone: &Zone,
    words: &[String],
    lines: &str,
    out: &mut Vec<u8>,
) -> Result<(), AllocError> {
    let update = trip_update(alloc, words, lines)?;
    if update.stop_time_update.as_slice().len() >= TOO_MANY {
        return say(out, "too many updates");
    }
    let moment = number_at(words, "moment").unwrap_or(0);
    let predictions = Resolver::new(table, zone).predict(alloc, &update, moment)?;
    match word(words, 0) {
        "predict" => say_rows(alloc, &update, &predictions, words, out),
        "delays" => say_delays(alloc, &predictions, out),
        _ => say_governing(alloc, &predictions, words, out),
    }
}

/// Answers `head`, `predict ..`, `delays ..` and `governing POSITION ..`, in which `..` names a moment and a trip with its updates in
/// the lines that are given.
pub fn answer(
    alloc: Global,
    table: &Timetable,
    zone: &Zone,
    words: &[String],
    given: &[u8],
    out: &mut Vec<u8>,
) -> Result<bool, AllocError> {
    match word(words, 0) {
        "head" => out.extend_from_slice(&prediction_head(alloc)?)?,
        "predict" | "delays" | "governing" => {
            let lines = str::from_utf8(given).unwrap_or("");
            answer_update(alloc, table, zone, words, lines, out)?;
        }
        _ => return Ok(false),
    }
    Ok(true)
}

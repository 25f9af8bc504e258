//! Trip updates from words.

use crate::keyed::{number_at, text_at};
use cases::word_list;
use feed_values::{Items, StopTimeEvent, StopTimeUpdate, Text, TripDescriptor, TripUpdate};
use std::alloc::{AllocError, Global};

// The text behind a name, in which `\n` is a line break.
fn text_of(alloc: Global, words: &[String], name: &str) -> Result<Option<Text>, AllocError> {
    let Some(spelled) = text_at(words, name) else {
        return Ok(None);
    };
    let text = spelled.replace(alloc, "\\n", "\n")?;
    Ok(Some(Text::of(alloc, text.as_str())?))
}

/// The trip of `trip ID time START_TIME date START_DATE relationship NUMBER`, of which each may be left out.
pub fn descriptor(alloc: Global, words: &[String]) -> Result<TripDescriptor, AllocError> {
    Ok(TripDescriptor {
        trip_id: text_of(alloc, words, "trip")?,
        start_time: text_of(alloc, words, "time")?,
        start_date: text_of(alloc, words, "date")?,
        schedule_relationship: number_at(words, "relationship"),
        route_id: None,
        direction_id: None,
        unknown: Items::new(alloc),
    })
}

// An event that states a delay or a time.
fn event(alloc: Global, delay: Option<i32>, time: Option<i64>) -> Option<StopTimeEvent> {
    match (delay, time) {
        (None, None) => None,
        _ => Some(StopTimeEvent {
            delay,
            time,
            uncertainty: None,
            unknown: Items::new(alloc),
        }),
    }
}

// The update of `sequence NUMBER stop ID relationship NUMBER arrival-delay NUMBER arrival-time NUMBER ..`, of which each may be left out.
fn stop_update(alloc: Global, words: &[String]) -> Result<StopTimeUpdate, AllocError> {
    let arrival_delay = number_at(words, "arrival-delay");
    let departure_delay = number_at(words, "departure-delay");
    Ok(StopTimeUpdate {
        stop_sequence: number_at(words, "sequence"),
        arrival: event(alloc, arrival_delay, number_at(words, "arrival-time")),
        departure: event(alloc, departure_delay, number_at(words, "departure-time")),
        stop_id: text_of(alloc, words, "stop")?,
        schedule_relationship: number_at(words, "relationship"),
        stop_time_properties: None,
        unknown: Items::new(alloc),
    })
}

// The updates of lines.
fn stop_updates(alloc: Global, lines: &str) -> Result<Items<StopTimeUpdate>, AllocError> {
    let mut updates = Items::new(alloc);
    for line in lines.lines() {
        let words = word_list(alloc, line)?;
        updates.push(stop_update(alloc, &words)?)?;
    }
    Ok(updates)
}

/// The update of a trip, as in `descriptor`, with `delay NUMBER`, and with an update of a stop in each line.
pub fn trip_update(
    alloc: Global,
    words: &[String],
    lines: &str,
) -> Result<Box<TripUpdate>, AllocError> {
    let update = TripUpdate {
        trip: descriptor(alloc, words)?,
        stop_time_update: stop_updates(alloc, lines)?,
        vehicle: None,
        timestamp: None,
        delay: number_at(words, "delay"),
        trip_properties: None,
        unknown: Items::new(alloc),
    };
    Ok(Box::new(alloc, update)?)
}

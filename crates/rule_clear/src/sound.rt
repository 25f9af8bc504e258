//! Whether the stop time updates of an entity break no rule within their message. Nothing here takes memory.
ghost use Rattle.std.specs.Prelude.{◌≡◌, ◌<◌, ◌||◌, true, false, not, length, bytes_eq};
ghost use Rattle.feed_values.specs.Cells.{number_cell, text_cell};
ghost use Rattle.feed_values.specs.Views.{entity_value, natural};
ghost use Rattle.rule_table.specs.Passed.{given_or, is_given, is_number};
ghost use Rattle.rule_clear.specs.Sound.{AreUpdates, ComesAfter, Follows, SoundBelow, StandsAlone, at_most, below, cells_in, delay_in, equal, event_in, is_timed, no_time, time_in};

use feed_values::{Entity, StopTimeEvent, StopTimeUpdate, Text};

fn is_named(sequence: Option<u32>, id: &Option<Text>) -> bool
    ensures { result ≡ (is_given (number_cell (natural sequence)) || is_given (text_cell id.now)) }
{
    match (sequence, id) {
        (None, None) => false,
        _ => true,
    }
}

fn is_relation(relationship: Option<u32>, number: u32) -> bool
    ensures { result ≡ is_number number (number_cell (natural relationship)) }
{
    match relationship {
        None => false,
        Some(relationship) => relationship == number,
    }
}

fn is_held(event: &Option<StopTimeEvent>) -> bool
    ensures { result ≡ is_given (event_in event.now) }
{
    match event {
        None => false,
        Some(_) => true,
    }
}

fn is_timed(event: &Option<StopTimeEvent>) -> bool
    ensures { result ≡ is_timed (event_in event.now) (delay_in event.now) (time_in event.now) }
{
    match event {
        None => true,
        Some(event) => match (event.delay, event.time) {
            (None, None) => false,
            _ => true,
        },
    }
}

fn time_of(event: &Option<StopTimeEvent>) -> Option<i64>
    ensures { number_cell result ≡ time_in event.now }
{
    match event {
        None => None,
        Some(event) => event.time,
    }
}

fn is_no_time(time: Option<i64>) -> bool
    ensures { result ≡ no_time (number_cell time) }
{
    match time {
        None => false,
        Some(time) => !(1104537600 <= time && time <= 4294967295),
    }
}

fn is_below(first: Option<i64>, second: Option<i64>) -> bool
    ensures { result ≡ below (number_cell first) (number_cell second) }
{
    match (first, second) {
        (Some(first), Some(second)) => first < second,
        _ => false,
    }
}

fn is_at_most(first: Option<i64>, second: Option<i64>) -> bool
    ensures { result ≡ at_most (number_cell first) (number_cell second) }
{
    match (second, first) {
        (Some(second), Some(first)) => first <= second,
        _ => false,
    }
}

/// The second where it is given, and else the first.
fn given_or(first: Option<i64>, second: Option<i64>) -> Option<i64>
    ensures { number_cell result ≡ given_or (number_cell first) (number_cell second) }
{
    match second {
        None => first,
        Some(_) => second,
    }
}

/// Whether a stop_sequence is above the one before it, where both are given.
fn rises(before: Option<u32>, sequence: Option<u32>) -> bool
    ensures above { result ≡ not (at_most (number_cell (natural sequence)) (number_cell (natural before))) }
    ensures another { result ≡ true → equal (number_cell (natural before)) (number_cell (natural sequence)) ≡ false }
{
    match (before, sequence) {
        (Some(before), Some(sequence)) => before < sequence,
        _ => true,
    }
}

/// Whether the last bytes of two texts are equal, where both have one. Ids of stops in a row mostly differ there.
fn end_alike(first: &str, second: &str) -> bool
    ensures { first.now ≡ second.now → result ≡ true }
{
    match (first.as_bytes().last(), second.as_bytes().last()) {
        (Some(first), Some(second)) => *first == *second,
        _ => true,
    }
}

fn are_texts_equal(first: &str, second: &str) -> bool
    ensures { result ≡ bytes_eq first.now second.now }
{
    end_alike(first, second) && first == second
}

fn are_equal(before: &Option<Text>, id: &Option<Text>) -> bool
    ensures { result ≡ equal (text_cell before.now) (text_cell id.now) }
{
    match (before, id) {
        (Some(before), Some(id)) => are_texts_equal(before.as_str(), id.as_str()),
        _ => false,
    }
}

/// Whether an update breaks no rule by itself.
fn is_sound(stop: &StopTimeUpdate) -> bool
    ensures { result ≡ true → StandsAlone (cells_in stop.now) }
{
    let skipped = is_relation(stop.schedule_relationship, 1);
    let without_data = is_relation(stop.schedule_relationship, 2);
    let arrives = is_held(&stop.arrival);
    let departs = is_held(&stop.departure);
    let arrival = time_of(&stop.arrival);
    let departure = time_of(&stop.departure);
    is_named(stop.stop_sequence, &stop.stop_id)
        && (skipped || (without_data || (arrives || departs)))
        && !(without_data && arrives)
        && !(without_data && departs)
        && is_timed(&stop.arrival)
        && is_timed(&stop.departure)
        && !is_no_time(arrival)
        && !is_no_time(departure)
        && !is_below(departure, arrival)
}

/// Whether an update breaks no rule after the one before it.
fn follows(before: &StopTimeUpdate, stop: &StopTimeUpdate) -> bool
    ensures { result ≡ true → ComesAfter (cells_in before.now) (cells_in stop.now) }
{
    let last = given_or(time_of(&before.arrival), time_of(&before.departure));
    let first = given_or(time_of(&stop.departure), time_of(&stop.arrival));
    rises(before.stop_sequence, stop.stop_sequence)
        && !is_at_most(first, last)
        && !are_equal(&before.stop_id, &stop.stop_id)
}

/// Whether the update at an index breaks no rule after the one before it, where it isn't the first.
fn follows_at(entity: &Entity, stops: &[StopTimeUpdate], index: usize) -> bool
    requires updates { AreUpdates (entity_value entity.now) stops.now }
    requires within { index < length stops.now }
    ensures { result ≡ true → Follows (entity_value entity.now) index }
{
    if index == 0 {
        return true;
    }
    follows(&stops[index - 1], &stops[index])
}

/// Whether none of an entity's updates breaks a rule.
pub(crate) fn are_sound(entity: &Entity, stops: &[StopTimeUpdate]) -> bool
    requires { AreUpdates (entity_value entity.now) stops.now }
    ensures { result ≡ true → SoundBelow (entity_value entity.now) (length stops.now) }
{
    for (index, stop) in stops.iter().enumerate() {
        if !is_sound(stop) || !follows_at(entity, stops, index) {
            return false;
        }
    }
    true
}

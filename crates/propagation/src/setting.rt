//! What an event's update sets.
ghost use Rattle.std.specs.Prelude.{◌≡◌, IfSome, Some, option_map};
ghost use Rattle.propagation.specs.Events.{event_in, own_in};
ghost use Rattle.propagation.specs.Setters.{IsDelay, IsInstant, delay_by, has_no_data, is_arrival, is_scheduled, is_skipped, set_at, set_by};
ghost use Rattle.propagation.specs.declared.source.Source.TheVariants as source;

use crate::event::Event;
use crate::event_kind::EventKind;
use crate::own::{Own, stated_delay, stated_time};
use crate::setter::Setter;
use crate::source::Source;

/// SKIPPED, in the `schedule_relationship` of an update.
const SKIPPED: u32 = 1;

/// NO_DATA, in the `schedule_relationship` of an update.
const NO_DATA: u32 = 2;

pub(crate) fn is_scheduled(relationship: Option<u32>) -> bool
    ensures { result ≡ is_scheduled relationship }
{
    relationship.unwrap_or(0) == 0
}

pub(crate) fn is_skipped(relationship: Option<u32>) -> bool
    ensures { result ≡ is_skipped relationship }
{
    relationship.unwrap_or(0) == SKIPPED
}

fn has_no_data(relationship: Option<u32>) -> bool
    ensures { result ≡ has_no_data relationship }
{
    relationship.unwrap_or(0) == NO_DATA
}

fn is_arrival(event: EventKind) -> bool
    ensures { result ≡ is_arrival event }
{
    match event {
        EventKind::Arrival => true,
        EventKind::Departure | EventKind::Trip | EventKind::Update => false,
    }
}

/// A delay, by a time where it is given and scheduled, else as it is stated.
fn delay_by(time: Option<i64>, scheduled: Option<i128>, stated: Option<i32>) -> Option<i128>
    requires { IfSome scheduled IsInstant }
    ensures value { result ≡ delay_by time scheduled stated }
    ensures small { IfSome result IsDelay }
{
    match (time, scheduled) {
        (Some(time), Some(scheduled)) => Some(time as i128 - scheduled),
        _ => match stated {
            Some(delay) => Some(delay as i128),
            None => None,
        },
    }
}

/// The setter of an update with a delay.
fn with_delay(index: u32, delay: Option<i128>) -> Option<Setter>
    requires { IfSome delay IsDelay }
    ensures value { result ≡ option_map (λ d. record { source = source.Update index; delay = Some d }) delay }
    ensures small { IfSome result (λ s. IfSome s.delay IsDelay) }
{
    match delay {
        Some(delay) => Some(Setter {
            source: Source::Update(index),
            delay: Some(delay),
        }),
        None => None,
    }
}

/// What the update of a stop sets at an event.
fn set_by(event: &Event<'_>, own: Own<'_>) -> Option<Setter>
    requires { IfSome event.now.scheduled IsInstant }
    ensures value { result ≡ set_by (event_in event.now) (own_in own.entry) }
    ensures small { IfSome result (λ s. IfSome s.delay IsDelay) }
{
    let relationship = own.update.schedule_relationship;
    if has_no_data(relationship) && is_arrival(event.event) {
        return Some(Setter {
            source: Source::Update(own.index),
            delay: None,
        });
    }
    if !is_scheduled(relationship) {
        return None;
    }
    let time = stated_time(own.update, event.event);
    let stated = stated_delay(own.update, event.event);
    with_delay(own.index, delay_by(time, event.scheduled, stated))
}

/// What is set at an event.
pub(crate) fn set_at(event: &Event<'_>) -> Option<Setter>
    requires { IfSome event.now.scheduled IsInstant }
    ensures value { result ≡ set_at (event_in event.now) }
    ensures small { IfSome result (λ s. IfSome s.delay IsDelay) }
{
    match event.own {
        Some(own) => set_by(event, own),
        None => None,
    }
}

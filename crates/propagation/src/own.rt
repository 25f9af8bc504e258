//! The update of a stop.
ghost use Rattle.std.specs.Prelude.{◌≡◌, option_copied, option_map};
ghost use Rattle.propagation.specs.Events.{own_in, own_of};
ghost use Rattle.propagation.specs.Setters.{stated_delay, stated_event, stated_time};

use crate::event_kind::EventKind;
use feed_values::{StopTimeEvent, StopTimeUpdate};

/// The update that matches a stop, with its index.
#[derive(Clone, Copy)]
pub(crate) struct Own<'a> {
    pub index: u32,
    pub update: &'a StopTimeUpdate,
}

/// The update with an index.
pub(crate) fn own_of(updates: &[StopTimeUpdate], index: Option<u32>) -> Option<Own<'_>>
    ensures { option_map own_in result ≡ own_of updates.now index }
{
    match index {
        Some(index) => match updates.get(index as usize) {
            Some(update) => Some(Own { index, update }),
            None => None,
        },
        None => None,
    }
}

/// What an update states of an event.
fn stated_event(update: &StopTimeUpdate, event: EventKind) -> Option<&StopTimeEvent>
    ensures { option_copied result ≡ stated_event event update.now }
{
    match event {
        EventKind::Arrival => update.arrival.as_ref(),
        EventKind::Departure => update.departure.as_ref(),
        EventKind::Trip | EventKind::Update => None,
    }
}

/// The time that an update states of an event, in POSIX seconds.
pub(crate) fn stated_time(update: &StopTimeUpdate, event: EventKind) -> Option<i64>
    ensures { result ≡ stated_time event update.now }
{
    match stated_event(update, event) {
        Some(stated) => stated.time,
        None => None,
    }
}

/// The delay that an update states of an event, in seconds.
pub(crate) fn stated_delay(update: &StopTimeUpdate, event: EventKind) -> Option<i32>
    ensures { result ≡ stated_delay event update.now }
{
    match stated_event(update, event) {
        Some(stated) => stated.delay,
        None => None,
    }
}

//! An event of a trip.
ghost use Rattle.std.specs.Prelude.{◌≡◌, IfSome, option_map};
ghost use Rattle.propagation.specs.Events.{arrival_at, departure_at, event_in, own_in, scheduled_at};
ghost use Rattle.propagation.specs.Setters.{IsInstant, IsZero};
ghost use Rattle.propagation.specs.Stops.{stop_in};

use crate::event_kind::EventKind;
use crate::own::Own;
use crate::visit::Visit;

/// The arrival or the departure of a stop.
#[derive(Clone, Copy)]
pub(crate) struct Event<'a> {
    pub position: i128,
    pub event: EventKind,
    pub sequence: u32,
    pub stop: &'a str,
    pub scheduled: Option<i128>,
    pub own: Option<Own<'a>>,
}

/// When an event is scheduled, in POSIX seconds.
pub(crate) fn scheduled_at(zero: i128, time: Option<u32>) -> Option<i128>
    requires { IsZero zero }
    ensures value { result ≡ scheduled_at zero time }
    ensures small { IfSome result IsInstant }
{
    match time {
        Some(time) => Some(zero + time as i128),
        None => None,
    }
}

/// The arrival at the stop at a place.
pub(crate) fn arrival_at<'a>(
    zero: i128,
    place: usize,
    stop: Visit<'a>,
    own: Option<Own<'a>>,
) -> Event<'a>
    requires { IsZero zero }
    ensures event { event_in result ≡ arrival_at zero place (stop_in stop.entry) (option_map own_in own.entry) }
    ensures small { IfSome result.scheduled IsInstant }
{
    Event {
        position: place as i128 * 2,
        event: EventKind::Arrival,
        sequence: stop.sequence,
        stop: stop.stop,
        scheduled: scheduled_at(zero, stop.arrival),
        own,
    }
}

/// The departure from the stop at a place.
pub(crate) fn departure_at<'a>(
    zero: i128,
    place: usize,
    stop: Visit<'a>,
    own: Option<Own<'a>>,
) -> Event<'a>
    requires { IsZero zero }
    ensures event { event_in result ≡ departure_at zero place (stop_in stop.entry) (option_map own_in own.entry) }
    ensures small { IfSome result.scheduled IsInstant }
{
    Event {
        position: place as i128 * 2 + 1,
        event: EventKind::Departure,
        sequence: stop.sequence,
        stop: stop.stop,
        scheduled: scheduled_at(zero, stop.departure),
        own,
    }
}

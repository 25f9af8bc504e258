//! What is predicted of an event.
ghost use Rattle.std.specs.Prelude.{◌≡◌, IfSome};
ghost use Rattle.propagation.specs.Events.{event_in, own_in};
ghost use Rattle.propagation.specs.Setters.{IsDelay, IsInstant};
ghost use Rattle.propagation.specs.Rows.{at_time, delayed, governed, outcome, set_delay, told};

use crate::event::Event;
use crate::own::{Own, stated_delay, stated_time};
use crate::row_state::RowState;
use crate::setter::Setter;
use crate::setting::{is_scheduled, is_skipped};
use crate::source::Source;

/// What a row says of an event.
#[derive(Clone, Copy, Debug)]
pub(crate) struct Outcome {
    pub predicted: Option<i128>,
    pub delay: Option<i128>,
    pub source: Source,
    pub state: RowState,
}

/// An event whose time is stated.
fn at_time(source: Source, scheduled: Option<i128>, stated: Option<i32>, time: i64) -> Outcome
    requires { IfSome scheduled IsInstant }
    ensures { result ≡ at_time source scheduled stated time }
{
    let predicted = Some(time as i128);
    match scheduled {
        Some(scheduled) => Outcome {
            predicted,
            delay: Some(time as i128 - scheduled),
            source,
            state: RowState::Predicted,
        },
        None => Outcome {
            predicted,
            delay: match stated {
                Some(delay) => Some(delay as i128),
                None => None,
            },
            source,
            state: RowState::Stated,
        },
    }
}

/// What the update of its stop tells of an event: that it is skipped, or its time.
fn told(event: &Event<'_>, own: Own<'_>) -> Option<Outcome>
    requires { IfSome event.now.scheduled IsInstant }
    ensures { result ≡ told (event_in event.now) (own_in own.entry) }
{
    let source = Source::Update(own.index);
    let relationship = own.update.schedule_relationship;
    if is_skipped(relationship) {
        return Some(Outcome {
            predicted: None,
            delay: None,
            source,
            state: RowState::Skipped,
        });
    }
    if !is_scheduled(relationship) {
        return None;
    }
    let stated = stated_delay(own.update, event.event);
    match stated_time(own.update, event.event) {
        Some(time) => Some(at_time(source, event.scheduled, stated, time)),
        None => None,
    }
}

/// An event with a delay.
fn delayed(source: Source, scheduled: Option<i128>, delay: i128) -> Outcome
    requires scheduled { IfSome scheduled IsInstant }
    requires delay { IsDelay delay }
    ensures { result ≡ delayed source scheduled delay }
{
    match scheduled {
        Some(scheduled) => Outcome {
            predicted: Some(scheduled + delay),
            delay: Some(delay),
            source,
            state: RowState::Predicted,
        },
        None => Outcome {
            predicted: None,
            delay: Some(delay),
            source,
            state: RowState::Untimed,
        },
    }
}

/// An event that a setter governs.
fn set_delay(source: Source, scheduled: Option<i128>, delay: Option<i128>) -> Outcome
    requires scheduled { IfSome scheduled IsInstant }
    requires delay { IfSome delay IsDelay }
    ensures { result ≡ set_delay source scheduled delay }
{
    match delay {
        Some(delay) => delayed(source, scheduled, delay),
        None => Outcome {
            predicted: None,
            delay: None,
            source,
            state: RowState::NoData,
        },
    }
}

/// An event of which its own update tells nothing.
fn governed(scheduled: Option<i128>, setter: Option<Setter>) -> Outcome
    requires scheduled { IfSome scheduled IsInstant }
    requires delay { IfSome setter (λ s. IfSome s.delay IsDelay) }
    ensures { result ≡ governed scheduled setter }
{
    match setter {
        Some(setter) => set_delay(setter.source, scheduled, setter.delay),
        None => Outcome {
            predicted: None,
            delay: None,
            source: Source::Blank,
            state: RowState::Unknown,
        },
    }
}

/// What is predicted of an event that a setter governs.
pub(crate) fn outcome_of(event: &Event<'_>, setter: Option<Setter>) -> Outcome
    requires scheduled { IfSome event.now.scheduled IsInstant }
    requires delay { IfSome setter (λ s. IfSome s.delay IsDelay) }
    ensures { result ≡ outcome (event_in event.now) setter }
{
    let told = match event.own {
        Some(own) => told(event, own),
        None => None,
    };
    match told {
        Some(outcome) => outcome,
        None => governed(event.scheduled, setter),
    }
}

//! The walk through the events of a trip.
ghost use Rattle.std.specs.Prelude.{◌≡◌, ◌<◌, ◌∷◌, ◌++◌, [], negsuc, IfOk, IfSome, OnOk, Some, length, map};
ghost use Rattle.propagation.specs.Events.{event_in, events};
ghost use Rattle.propagation.specs.Rows.{ArePassed, event_row, outcome, row_by};
ghost use Rattle.propagation.specs.Setters.{IsDelay, IsInstant, IsZero, AreSmall, BeforeFirst, event_setters, last_setter, placed, set_at, setters, trip_setters};
ghost use Rattle.propagation.specs.declared.source.Source.TheVariants as source;
ghost use Rattle.propagation.specs.Stops.{stops_in};

use crate::event::{Event, arrival_at, departure_at};
use crate::matching::Matching;
use crate::outcome::{Outcome, outcome_of};
use crate::own::own_of;
use crate::placed_setter::PlacedSetter;
use crate::prediction_row::PredictionRow;
use crate::setter::Setter;
use crate::setting::set_at;
use crate::source::Source;
use crate::stops::Stops;
use feed_values::{StopTimeUpdate, Text};
use std::alloc::{AllocError, Global};

/// What a walk has come to: the setters that it met, and the rows of the events.
#[derive(Drop)]
pub(crate) struct Walk {
    pub setters: Vec<PlacedSetter>,
    pub rows: Vec<PredictionRow>,
}

/// The row of an event.
fn row_by(alloc: Global, event: &Event<'_>, outcome: Outcome) -> Result<PredictionRow, AllocError>
    ensures { IfOk result (λ row. row ≡ row_by (event_in event.now) outcome) }
{
    let stop = Text::of(alloc, event.stop)?;
    Ok(PredictionRow {
        stop_sequence: Some(event.sequence),
        stop_id: Some(stop),
        event: event.event,
        scheduled: event.scheduled,
        predicted: outcome.predicted,
        delay: outcome.delay,
        source: outcome.source,
        state: outcome.state,
    })
}

/// The last of some setters.
pub(crate) fn last_setter(setters: &[PlacedSetter]) -> Option<Setter>
    ensures value { result ≡ last_setter setters.now }
    ensures small { AreSmall setters.now → IfSome result (λ s. IfSome s.delay IsDelay) }
{
    match setters.last() {
        Some(placed) => Some(placed.setter),
        None => None,
    }
}

/// The setter of the delay of a whole trip.
fn trip_setter(delay: i32) -> PlacedSetter
    ensures { result ≡ (record { position = negsuc 0; setter = record { source = source.Trip; delay = Some delay } }) }
{
    PlacedSetter {
        position: -1,
        setter: Setter {
            source: Source::Trip,
            delay: Some(delay as i128),
        },
    }
}

impl Walk {
    /// A walk before the first event: the delay of the whole trip is set.
    pub fn new(alloc: Global, delay: Option<i32>) -> Result<Walk, AllocError>
        ensures setters { IfOk result (λ walk. walk.setters.items ≡ trip_setters delay) }
        ensures rows { IfOk result (λ walk. walk.rows.items ≡ []) }
        ensures small { IfOk result (λ walk. AreSmall walk.setters.items) }
    {
        let mut setters = Vec::new(alloc);
        if let Some(delay) = delay {
            setters.push(trip_setter(delay))?;
        }
        let rows = Vec::new(alloc);
        Ok(Walk { setters, rows })
    }

    // Sets what an event sets.
    fn set(&mut self, event: &Event<'_>) -> Result<(), AllocError>
        requires scheduled { IfSome event.now.scheduled IsInstant }
        requires small { AreSmall self.old.setters.items }
        ensures setters { OnOk result (self.new.setters.items ≡ self.old.setters.items ++ placed event.now.position (set_at (event_in event.now))) }
        ensures rows { OnOk result (self.new.rows.items ≡ self.old.rows.items) }
        ensures small { OnOk result (AreSmall self.new.setters.items) }
    {
        if let Some(setter) = set_at(event) {
            self.setters.push(PlacedSetter {
                position: event.position,
                setter,
            })?;
        }
        Ok(())
    }

    // Comes to an event.
    fn pass(&mut self, alloc: Global, event: &Event<'_>) -> Result<(), AllocError>
        requires scheduled { IfSome event.now.scheduled IsInstant }
        requires small { AreSmall self.old.setters.items }
        ensures setters { OnOk result (self.new.setters.items ≡ self.old.setters.items ++ placed event.now.position (set_at (event_in event.now))) }
        ensures rows { OnOk result (self.new.rows.items ≡ self.old.rows.items
            ++ row_by (event_in event.now) (outcome (event_in event.now) (last_setter self.new.setters.items)) ∷ []) }
        ensures small { OnOk result (AreSmall self.new.setters.items) }
    {
        self.set(event)?;
        let setter = last_setter(self.setters.as_slice());
        let row = row_by(alloc, event, outcome_of(event, setter))?;
        self.rows.push(row)?;
        Ok(())
    }

    // Comes to the two events of a stop.
    fn pass_stop(
        &mut self,
        alloc: Global,
        arrival: &Event<'_>,
        departure: &Event<'_>,
    ) -> Result<(), AllocError>
        requires arrival { IfSome arrival.now.scheduled IsInstant }
        requires departure { IfSome departure.now.scheduled IsInstant }
        requires small { AreSmall self.old.setters.items }
        ensures small { OnOk result (AreSmall self.new.setters.items) }
        ensures passed { OnOk result (ArePassed self.old.setters.items self.old.rows.items (event_in arrival.now) (event_in departure.now)
            self.new.setters.items self.new.rows.items) }
    {
        self.pass(alloc, arrival)?;
        self.pass(alloc, departure)
    }

    /// Comes to all events of a trip, in their order.
    pub fn pass_all(
        &mut self,
        alloc: Global,
        zero: i128,
        stops: &Stops<'_>,
        updates: &[StopTimeUpdate],
        matching: &Matching,
    ) -> Result<(), AllocError>
        requires zero { IsZero zero }
        requires before { BeforeFirst self.old.setters.items }
        requires size { length matching.now.matchers.items ≡ length (stops_in stops.now) }
        ensures setters { OnOk result (self.new.setters.items ≡ self.old.setters.items
            ++ event_setters (events zero (stops_in stops.now) updates.now matching.now.places.items)) }
        ensures rows { OnOk result (self.new.rows.items ≡ self.old.rows.items
            ++ map (event_row self.new.setters.items) (events zero (stops_in stops.now) updates.now matching.now.places.items)) }
    {
        for place in 0..stops.len() {
            let stop = stops.visit(place);
            let own = own_of(updates, matching.matcher(place));
            let arrival = arrival_at(zero, place, stop, own);
            let departure = departure_at(zero, place, stop, own);
            self.pass_stop(alloc, &arrival, &departure)?;
        }
        Ok(())
    }
}

//! The predictions of a trip update.
ghost use Rattle.std.specs.Prelude.{◌≡◌, pos, IfSome, None, option_map};
ghost use Rattle.std.proofs.Props.{props};
ghost use Rattle.rt_day.specs.Date.{IsYearInRange};
ghost use Rattle.propagation.specs.Setters.{AreInOrder, governing};

use crate::placed_setter::PlacedSetter;
use crate::prediction_row::PredictionRow;
use crate::setter::Setter;
use crate::walk::last_setter;
use rt_day::Day;

/// What is predicted of a trip update.
///
/// A day is there from 1000-01-01 to 9800-12-31. Calls on predictions take no memory.
#[derive(Drop)]
pub struct Predictions {
    day: Option<Day>,
    setters: Vec<PlacedSetter>,
    rows: Vec<PredictionRow>,
    ghost in_range: { IfSome day (λ d. IsYearInRange d.number) } by { Prim.hlevel props },
    ghost in_order: { AreInOrder setters.items },
}

impl Predictions {
    ghost use Rattle.propagation.specs.Predictions.{Holds, day_in, rows_in, setters_in};

    /// Predictions of a day, with setters by rising position.
    pub(crate) fn new(
        day: Option<Day>,
        setters: Vec<PlacedSetter>,
        rows: Vec<PredictionRow>,
    ) -> Predictions
        requires day { IfSome day (λ d. IsYearInRange d.number) }
        requires in_order { AreInOrder setters.items }
        ensures { Holds result (option_map (λ d. d.number) day) setters.items rows.items }
    {
        Predictions { day, setters, rows }
    }

    /// The service day. None exactly outside scheduled mode: where the trip is canceled, isn't known, has another
    /// relationship than SCHEDULED, or has no service day or no shift.
    pub fn day(&self) -> Option<Day>
        ensures day { option_map (λ day. day.number) result ≡ day_in self.now }
        ensures in_range { IfSome result (λ day. IsYearInRange day.number) }
    {
        self.day
    }

    /// The rows. In scheduled mode these are one for each arrival and departure, in the order of the trip, and then one for
    /// each update that matches no stop.
    pub fn rows(&self) -> &[PredictionRow]
        ensures { result.now ≡ rows_in self.now }
    {
        self.rows.as_slice()
    }

    /// The setter that governs an event. The arrival at the stop with index `j` has the position `2 * j`, its departure the
    /// next one; each position after the trip's last has the setter that came last. None exactly where no setter stands at
    /// or before the position, and outside scheduled mode.
    pub fn governing(&self, position: usize) -> Option<Setter>
        ensures { result ≡ governing (setters_in self.now) (pos position) }
    {
        let setters = self.setters.as_slice();
        let count = setters.partition_point(|placed| placed.position <= position as i128);
        last_setter(&setters[..count])
    }
}

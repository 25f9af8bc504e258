//! What is said of trips that return to a stop, in words of stop times.

ghost use Rattle.timetable.specs.Timetables.{TellsReturns};

/// A trip visits a stop twice exactly where two of its stop times, at different sequences, have one
/// stop id.
pub fn visits_twice_follows_its_stops()
    ensures { TellsReturns }
{}

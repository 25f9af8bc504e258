//! A law of what is held with another timetable. A function stands for its contract: it does nothing.
ghost use Rattle.exchanged_timetables.specs.Laws.{ExchangeRetables};

/// What matched a history matches it with the other timetable, with the numbers that rules had, and its changes are what opened and closed.
pub fn exchange_retables()
    ensures { ExchangeRetables }
{}

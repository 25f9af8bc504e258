//! Laws of peaks that are raised. A function stands for its contract: it does nothing.
ghost use Rattle.vehicle_peaks.specs.Laws.{RiseMoves, RiseRaises, RisesMove, RisesRaise};

/// What raises a peak raises it to where all timestamps do.
pub fn rise_raises()
    ensures { RiseRaises }
{}

/// It is there exactly where the peak is another afterwards.
pub fn rise_moves()
    ensures { RiseMoves }
{}

/// With the rises of a feed's last snapshot the peaks are those that hold once another one comes.
pub fn rises_raise()
    ensures { RisesRaise }
{}

/// The vehicles that have one are those whose peak is another then.
pub fn rises_move()
    ensures { RisesMove }
{}

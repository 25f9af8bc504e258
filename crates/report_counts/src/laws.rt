//! Laws of the definitions. A function stands for its contract: it does nothing, and its `ensures` is proved for everything that it
//! speaks of.
ghost use Rattle.report_counts.specs.Laws.{EachLineCounts};

/// Each line counts once: as a snapshot's, as a timetable's, as that of a rule, as ignored, as a trial's or as no report's.
pub fn each_line_counts()
    ensures { EachLineCounts }
{}

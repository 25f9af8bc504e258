//! Laws of the group. A function stands for its contract: it does nothing, and its `ensures` is proved for everything that it
//! speaks of.
ghost use Rattle.schedule_rules.specs.Absent.{NoTimetableNoFindings};

/// Where the timetable is absent, the group finds nothing.
#[tactic(auto, using(crate::proofs::Absent::no_timetable))]
pub fn no_timetable_no_findings()
    ensures { NoTimetableNoFindings }
{}

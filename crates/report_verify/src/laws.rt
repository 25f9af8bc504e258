//! Laws of the definitions. A function stands for its contract: it does nothing, and its `ensures` is proved for
//! everything that it speaks of.
ghost use Rattle.report_verify.specs.Laws.{ConfirmedShows, PrintedIsConfirmed, SpelledOnce, VerdictIs, VerdictIsOne};

/// A text spells at most one finding, with one number of a snapshot.
pub fn spelled_once()
    ensures { SpelledOnce }
{}

/// The verdict that is computed is the verdict on the text: confirmed where it spells a finding whose facts break its rule, denied
/// where they don't, and otherwise other or malformed.
pub fn verdict_is()
    ensures { VerdictIs }
{}

/// No other verdict is.
pub fn verdict_is_one()
    ensures { VerdictIsOne }
{}

/// The text of each finding whose facts break its rule is confirmed as that finding, where its numbers are within the bounds of
/// their types. So each line that `finding_line` of rt_report gives is confirmed: its text is UTF-8, as `finding_text` says.
pub fn printed_is_confirmed()
    ensures { PrintedIsConfirmed }
{}

/// The rule of a confirmed finding is broken at its place in every timetable and after every history in which its facts hold: the
/// finding is among all findings there.
pub fn confirmed_shows()
    ensures { ConfirmedShows }
{}

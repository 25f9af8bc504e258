//! What is said of the numbers in a list's report.
ghost use Rattle.run_list.specs.Laws.{NumbersAreSince};

/// As long as no timetable comes, each number is that since when the rule stands at its place.
pub fn numbers_are_since()
    ensures { NumbersAreSince }
{}

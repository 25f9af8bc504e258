//! The laws of what is in force. Each function stands for its contract: it does nothing, and its `ensures` is proved for all alerts.
ghost use Rattle.alert_terms.specs.Laws.{NextIsLeast, NothingChangesBeforeNext};

/// The next change after a moment is a start or an end of an alert after it, and none of these comes before. There is none only
/// where no start and no end comes after the moment.
#[tactic(auto, using(crate::proofs::Least::next_is_least))]
pub fn next_is_least()
    ensures { NextIsLeast }
{}

/// From a moment on, and before the next change after it, the same alerts are in force for whoever is asked for. Where there is no
/// next change, it stays so for good.
#[tactic(auto, using(crate::proofs::Unchanged::nothing_changes_before_next))]
pub fn nothing_changes_before_next()
    ensures { NothingChangesBeforeNext }
{}

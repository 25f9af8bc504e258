//! Laws of the definitions. A function stands for its contract: it does nothing, and its `ensures` is proved for everything that
//! it speaks of.
ghost use Rattle.judging.specs.Judged.{OneSnapshot};

/// The findings after a history of one snapshot are those of the snapshot by itself: on its header, then at its entities in the
/// order of their keys.
#[tactic(auto, using(crate::proofs::OneSnapshot::one_snapshot))]
pub fn one_snapshot_is_its_history()
    ensures { OneSnapshot }
{}

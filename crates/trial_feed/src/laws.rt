//! The law of the snapshots. The function stands for its contract: it does nothing, and its `ensures` is proved for all seeds.
ghost use Rattle.trial_feed.specs.Laws.{SnapshotsAreTaken};

/// The snapshots of every seed are accepted: they are well formed, and far below the limit of size.
#[tactic(auto, using(crate::proofs::Taken::snapshots_are_taken))]
pub fn snapshots_are_taken()
    ensures { SnapshotsAreTaken }
{}

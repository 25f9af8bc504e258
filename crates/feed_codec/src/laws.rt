//! The laws of decoding. Each function stands for its contract: it does nothing, and its `ensures` is proved for all
//! byte lists.
ghost use Rattle.feed_codec.specs.FirstFault.{RefusalIsFirst};
ghost use Rattle.feed_codec.specs.Parts.{PartsDecide};
ghost use Rattle.feed_codec.specs.Missing.{MissingIsFirst};

/// Every byte list is accepted, or is refused at the first place where it goes wrong, and never both.
#[tactic(auto, using(crate::proofs::SnapshotFaults::refusal_is_first))]
pub fn refusal_is_first()
    ensures { RefusalIsFirst }
{}

/// A snapshot is accepted or refused as its entities and the parts of its header are, each by itself, and the joined
/// header at the end.
#[tactic(auto, using(crate::proofs::Joining::parts_decide))]
pub fn parts_decide()
    ensures { PartsDecide }
{}

/// The required slot that an entity is refused for is the first that it lacks in the order id, trip, latitude, longitude,
/// text.
#[tactic(auto, using(crate::proofs::MissingOrder::missing_is_first))]
pub fn missing_is_first()
    ensures { MissingIsFirst }
{}

//! The laws of entities and of refusals. Each function stands for its contract: it does nothing, and its `ensures` is proved for all
//! byte lists.
ghost use Rattle.feed_stream.specs.Laws.{EntitiesFollowFields};
ghost use Rattle.feed_stream.specs.Settled.{SettledStays};

/// An entity's payload and its base are those of the field that spells it, in the place that the entities before it leave.
#[tactic(auto, using(crate::proofs::Bases::entities_follow_fields))]
pub fn entities_follow_fields()
    ensures { EntitiesFollowFields }
{}

/// A refusal that is settled for some bytes is the refusal of all longer bytes within the limit, and settled for them too.
pub fn settled_stays()
    ensures { SettledStays }
{}

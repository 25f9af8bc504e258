//! The laws of the union. Each function stands for its contract: it does nothing, and its `ensures` is proved for all feeds.
ghost use Rattle.feed_merge.specs.Laws.{IdsStayApart, StampIsGreatest, UnionDecodes, UnionKeepsEntities};

/// Ids of different feeds are different in the union, and so are different ids of one feed.
#[tactic(auto, using(crate::proofs::Ids::ids_stay_apart))]
pub fn ids_stay_apart()
    ensures { IdsStayApart }
{}

/// The union's timestamp is the greatest one that a header gives, and isn't given where none is.
#[tactic(auto, using(crate::proofs::Stamps::stamp_is_greatest))]
pub fn stamp_is_greatest()
    ensures { StampIsGreatest }
{}

/// For each entity of a feed, by its id and by how many entities before it have that id, there is exactly one entity of the union
/// with its id there and as many before it, and there are no others.
#[tactic(auto, using(crate::proofs::Kept::union_keeps_entities))]
pub fn union_keeps_entities()
    ensures { UnionKeepsEntities }
{}

/// The union is well formed, and its canonical bytes decode to it where they are no more than a snapshot may have.
#[tactic(auto, using(crate::proofs::Decoding::union_decodes))]
pub fn union_decodes()
    ensures { UnionDecodes }
{}

//! The laws that join encoding and decoding. Each function stands for its contract: it does nothing, and its `ensures`
//! is proved for all byte lists, values and messages.
ghost use Rattle.feed_codec.specs.EncodingLaws.{CanonicalMeansValue, AcceptedIsWellFormed, EncodedDecodes, CanonicalDecides};
ghost use Rattle.feed_codec.specs.EncodingLaws.{ValuesAreFaithful};

/// The canonical bytes of a well-formed value are whole fields that mean the value, for a snapshot and for every message in
/// it.
#[tactic(auto, using(crate::proofs::Roundtrips::canonical_means_value))]
pub fn canonical_means_value()
    ensures { CanonicalMeansValue }
{}

/// What an accepted snapshot says is well formed, and has canonical bytes of fewer than 2^64 bytes. So is what was decoded.
#[tactic(auto, using(crate::proofs::Roundtrips::accepted_is_well_formed))]
pub fn accepted_is_well_formed()
    ensures { AcceptedIsWellFormed }
{}

/// The canonical bytes of a well-formed snapshot are accepted where they fit its limit, and decode to the same message.
#[tactic(auto, using(crate::proofs::Roundtrips::encoded_decodes))]
pub fn encoded_decodes()
    ensures { EncodedDecodes }
{}

/// Two accepted snapshots have equal canonical bytes exactly where they have equal values, and equal messages.
#[tactic(auto, using(crate::proofs::Roundtrips::canonical_decides))]
pub fn canonical_decides()
    ensures { CanonicalDecides }
{}

/// Messages that hold the same values are the same messages.
#[tactic(auto, using(crate::proofs::Roundtrips::values_are_faithful))]
pub fn values_are_faithful()
    ensures { ValuesAreFaithful }
{}

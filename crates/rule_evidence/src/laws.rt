//! Laws of the definitions. A function stands for its contract: it does nothing, and its `ensures` is proved for
//! everything that it speaks of.
ghost use Rattle.rule_evidence.specs.Laws.{EvidenceIsFound, EvidenceIsAmong, EvidenceShows, FindingsAreEvidence};

/// Facts that break a rule at a place are found there by whatever answers with them.
#[tactic(auto, using(crate::proofs::Holding::evidence_found))]
pub fn evidence_is_found()
    ensures { EvidenceIsFound }
{}

/// Facts that break a rule at an entity, and hold there, are among the findings of the rule at the entity: the item of
/// their place is there.
#[tactic(auto, using(crate::proofs::Anchors::evidence_among))]
pub fn evidence_is_among()
    ensures { EvidenceIsAmong }
{}

/// For every timetable and every history, facts that break a rule at a place, and hold there, show that this finding is
/// among all findings.
#[tactic(auto, using(crate::proofs::Evidence::evidence_shows))]
pub fn evidence_shows()
    ensures { EvidenceShows }
{}

/// Of all findings after a history the facts break the rule at the place, and hold there.
#[tactic(auto, using(crate::proofs::Shown::findings_are_evidence))]
pub fn findings_are_evidence()
    ensures { FindingsAreEvidence }
{}

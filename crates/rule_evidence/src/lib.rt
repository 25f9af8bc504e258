//! Evidence: facts that break a rule at a place and hold there are a finding, and all findings are of this kind.
//!
//! The functions of `laws` say so for whatever answers, for one entity, and for every timetable and every history. None of
//! them does anything.
#![tactic(auto)]

mod laws;

pub use laws::{evidence_is_among, evidence_is_found, evidence_shows, findings_are_evidence};

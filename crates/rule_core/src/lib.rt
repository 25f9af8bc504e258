//! All that is said of rules, under one name: the table of rules and how a row is judged (`rule_table`), what is found
//! after a history of snapshots (`rule_history`), looks that spare rules (`rule_clear`), and what a finding's facts show
//! (`rule_evidence`). Each is a crate of its own, and so that a crate above waits for no more than it needs, it names that one.
#![tactic(auto)]

pub use rule_clear::{Clear, Listed, LocalAnswers, LocalRule, Look};
pub use rule_evidence::{
    evidence_is_among, evidence_is_found, evidence_shows, findings_are_evidence,
};
pub use rule_table::{
    Answers, Ask, AskRef, Atom, Both, Bound, BoundRule, Cite, ClearSlots, EntityKey, Fact, FactRef,
    Finding, FindingList, HeadRule, Kind, Mark, NoneClear, PairRule, PairView, PeakRule, PeakView,
    Place, PlaceRef, RuleId, Rules, all_rules, ask_of, cell_of, cites, cites_at, first, head_cites,
    head_slots, head_test, is_in_range, judge_head, judge_heads, judge_mark, judge_rules,
    mark_rules, number_cell, slots, slots_at, test, test_at, test_passes, truth_cell,
};

//! Findings without their facts.

use crate::rule::RuleId;

/// A rule that breaks at a place of an entity: a finding without its facts, which takes little memory.
#[derive(Clone, Copy)]
pub struct Mark {
    pub rule: RuleId,
    /// Which of the rule's slots, from 0.
    pub number: usize,
    /// Of the item in the list that the slot leads through, from 0; without one 0.
    pub index: u32,
}

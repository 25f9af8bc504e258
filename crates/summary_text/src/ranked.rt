//! The rules that broke, the worst first.

use report_counts::{Counts, Tallies};
use rule_table::{RuleId, all_rules};
use std::alloc::{AllocError, Global};

/// Whether a rule is a warning.
pub fn is_warning(rule: RuleId) -> bool {
    rule.level() == "W"
}

// What orders rules: errors before warnings, then the one with more findings, then the order of their texts.
fn rank(tallies: &Tallies, rule: RuleId) -> (bool, u64, u8) {
    (
        is_warning(rule),
        u64::MAX - tallies.findings(rule),
        rule.number(),
    )
}

/// The rules with findings or closings: errors first, then by how many findings they have.
pub fn ranked(alloc: Global, counts: &Counts) -> Result<Vec<RuleId>, AllocError> {
    let mut ranks = Vec::new(alloc);
    for rule in all_rules() {
        if broke(counts, *rule) {
            ranks.push((rank(&counts.rules, *rule), rule.number()))?;
        }
    }
    ranks.sort()?;
    let mut rules = Vec::with_capacity(alloc, ranks.len())?;
    for (_, number) in &ranks {
        if let Some(rule) = all_rules().get(*number as usize) {
            rules.push(*rule)?;
        }
    }
    Ok(rules)
}

fn broke(counts: &Counts, rule: RuleId) -> bool {
    match counts.rules.get(rule) {
        Some(tally) => tally.findings > 0 || tally.closings > 0,
        None => false,
    }
}

/// How many findings or openings rules of this level have: warnings, or all others.
pub fn findings_of(counts: &Counts, warnings: bool) -> u64 {
    let mut sum: u64 = 0;
    for rule in all_rules() {
        if is_warning(*rule) == warnings {
            sum = sum.saturating_add(counts.rules.findings(*rule));
        }
    }
    sum
}

//! The part by peaks.
ghost use Rattle.std.specs.Prelude.{◌≡◌};
ghost use Rattle.history_rules.specs.HeldPeaks.{peak_of};
ghost use Rattle.entity_parts.specs.Found.{peaked_found, peaked_count};
ghost use Rattle.entity_parts.specs.Rising.{peaked_rises};

use crate::part::EntityPart;
use crate::rules::PartRules;
use feed_values::{Entity, Items};
use history_rules::Peaks;
use judging::rule_by_rule;
use rt_outside::Steps;
use rule_table::{EntityKey, Finding, FindingList, PeakRule};
use std::alloc::{AllocError, Global};
use std::sync::ledger::Ledger;

/// The rules on what an entity's vehicle told before, with the peaks of all feeds.
#[derive(Clone, Copy)]
pub struct PeakedPart<'a> {
    pub rules: &'a PartRules,
    pub peaks: &'a Peaks,
}

impl EntityPart for PeakedPart<'_> {
    ghost found = { λ s k e. peaked_found (peak_of s.peaks.now) k e };

    ghost count = { λ _. peaked_count };

    ghost rises = { λ s k e. peaked_rises (peak_of s.peaks.now) k e };

    fn judge<L: Ledger>(
        &self,
        alloc: Global,
        key: &EntityKey,
        entity: &Entity,
        tests: &mut Steps<L>,
    ) -> Result<Items<Finding>, AllocError> {
        let mut out = FindingList::new(alloc);
        self.rules
            .peaked
            .judge(alloc, self.peaks, key, entity, &mut out, tests)?;
        let list = rule_by_rule(out.into_items())?;
        Ok(list)
    }
}

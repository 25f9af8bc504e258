//! The part by the pairing rows.
ghost use Rattle.std.specs.Prelude.{◌≡◌};
ghost use Rattle.entity_parts.specs.Found.{paired_found, paired_count};
ghost use Rattle.entity_parts.specs.Rising.{paired_rises};

use crate::part::EntityPart;
use crate::rules::PartRules;
use feed_values::{Entity, Items};
use judging::rule_by_rule;
use pairing_rules::PairIndex;
use rt_outside::Steps;
use rule_table::{EntityKey, Finding, FindingList, PairRule};
use std::alloc::{AllocError, Global};
use std::sync::ledger::Ledger;

/// The rules on trip updates and vehicle positions together, with the rows of all entities.
#[derive(Clone, Copy)]
pub struct PairedPart<'a> {
    pub rules: &'a PartRules,
    pub rows: &'a PairIndex,
}

impl EntityPart for PairedPart<'_> {
    ghost found = { λ s k e. paired_found s.rows.now k e };

    ghost count = { λ _. paired_count };

    ghost rises = { λ s k e. paired_rises s.rows.now k e };

    fn judge<L: Ledger>(
        &self,
        alloc: Global,
        key: &EntityKey,
        entity: &Entity,
        tests: &mut Steps<L>,
    ) -> Result<Items<Finding>, AllocError> {
        let mut out = FindingList::new(alloc);
        self.rules
            .paired
            .judge(alloc, self.rows, key, entity, &mut out, tests)?;
        let list = rule_by_rule(out.into_items())?;
        Ok(list)
    }
}

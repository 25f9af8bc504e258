//! The part by the bounds of timestamps.
ghost use Rattle.std.specs.Prelude.{◌≡◌};
ghost use Rattle.feed_values.specs.Views.{natural};
ghost use Rattle.entity_parts.specs.Found.{bounded_found, bounded_count};
ghost use Rattle.entity_parts.specs.Rising.{bounded_rises};

use crate::part::EntityPart;
use crate::rules::PartRules;
use feed_values::{Entity, FeedHeader, Items};
use judging::rule_by_rule;
use rt_outside::Steps;
use rule_table::{BoundRule, EntityKey, Finding, FindingList};
use std::alloc::{AllocError, Global};
use std::sync::ledger::Ledger;

/// The rules on timestamps, with the header of the entity's feed and the moment at which its snapshot was taken, in POSIX seconds.
#[derive(Clone, Copy)]
pub struct BoundedPart<'a> {
    pub rules: &'a PartRules,
    pub header: &'a FeedHeader,
    pub moment: u64,
}

impl EntityPart for BoundedPart<'_> {
    ghost found = { λ s k e. bounded_found (natural s.header.now.timestamp) s.moment k e };

    ghost count = { λ _. bounded_count };

    ghost rises = { λ s k e. bounded_rises (natural s.header.now.timestamp) s.moment k e };

    fn judge<L: Ledger>(
        &self,
        alloc: Global,
        key: &EntityKey,
        entity: &Entity,
        tests: &mut Steps<L>,
    ) -> Result<Items<Finding>, AllocError> {
        let mut out = FindingList::new(alloc);
        self.rules.bounded.judge(
            alloc,
            self.header,
            self.moment,
            key,
            entity,
            &mut out,
            tests,
        )?;
        let list = rule_by_rule(out.into_items())?;
        Ok(list)
    }
}

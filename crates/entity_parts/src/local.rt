//! The part by the entity and the timetable.
ghost use Rattle.std.specs.Prelude.{◌≡◌};
ghost use Rattle.rule_history.specs.Answered.{tables_of};
ghost use Rattle.entity_parts.specs.Found.{local_found, local_count};
ghost use Rattle.entity_parts.specs.Rising.{local_rises};

use crate::part::EntityPart;
use crate::rules::PartRules;
use feed_values::{Entity, Items};
use judging::rule_by_rule;
use rt_outside::Steps;
use rule_clear::LocalRule;
use rule_table::{EntityKey, Finding, FindingList};
use std::alloc::{AllocError, Global};
use std::sync::ledger::Ledger;
use timetable::Timetable;

/// The rules on one entity by itself and with the timetable.
#[derive(Clone, Copy)]
pub struct LocalPart<'a> {
    pub rules: &'a PartRules,
    pub table: &'a Timetable,
}

impl EntityPart for LocalPart<'_> {
    ghost found = { λ s k e. local_found (tables_of s.table.now) k e };

    ghost count = { λ _. local_count };

    ghost rises = { λ s k e. local_rises (tables_of s.table.now) k e };

    fn judge<L: Ledger>(
        &self,
        alloc: Global,
        key: &EntityKey,
        entity: &Entity,
        tests: &mut Steps<L>,
    ) -> Result<Items<Finding>, AllocError> {
        let mut out = FindingList::new(alloc);
        self.rules
            .local
            .judge(alloc, self.table, key, entity, &mut out, tests)?;
        let list = rule_by_rule(out.into_items())?;
        Ok(list)
    }
}

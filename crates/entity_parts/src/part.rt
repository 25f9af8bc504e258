//! What the parts have in common.
ghost use Rattle.std.specs.Prelude.{◌≡◌, ◌+◌, ◌≤◌, ℕ, List, IfOk, OnOk};
ghost use Rattle.feed_values.specs.Schema.{Value};
ghost use Rattle.feed_values.specs.Messages as messages;
ghost use Rattle.feed_values.specs.Views.{entity_value};
ghost use Rattle.rule_table.specs.declared.key.EntityKey.{EntityKey};
ghost use Rattle.rule_table.specs.Found.{Found};
ghost use Rattle.engine_laws.specs.Order.{found_cmp, Rises};

use feed_values::{Entity, Items};
use rt_outside::Steps;
use rule_table::{EntityKey, Finding};
use std::alloc::{AllocError, Global};
use std::sync::ledger::Ledger;

/// What judges one part of an entity's findings.
pub trait EntityPart {
    ghost found: { Self → EntityKey → Value messages.entity → List Found };

    /// How many rules it has.
    ghost count: { Self → ℕ };

    /// The findings of its rules at an entity, rule by rule in the order of their texts, and those of one rule by slot and index. It ticks once
    /// for each rule; after want of memory it has ticked at most that often.
    fn judge<L: Ledger>(
        &self,
        alloc: Global,
        key: &EntityKey,
        entity: &Entity,
        tests: &mut Steps<L>,
    ) -> Result<Items<Finding>, AllocError>
        ensures found { IfOk result (λ list. list ≡ found self.now key.now (entity_value entity.now)) }
        ensures ticked { OnOk result (tests.new ≡ tests.old + count self.now) }
        ensures most { tests.new ≤ tests.old + count self.now };

    /// They are in the order of findings, and no rule and place comes twice.
    ghost rises: { (s : Self) (k : EntityKey) (e : Value messages.entity) → Rises found_cmp (found s k e) };
}

//! What is known to be clear at an entity before its rules are judged.
ghost use Rattle.std.specs.Prelude.{◌≡◌, true, List, []};
ghost use Rattle.feed_values.specs.declared.slot.Slot.{Slot};
ghost use Rattle.rule_table.specs.declared.rule.RuleId.{RuleId};
ghost use Rattle.rule_table.specs.ClearSlots.{IsAmong};

use crate::rule::RuleId;
use feed_values::Slot;

/// What knows of rules and slots at which they break nowhere, so that they needn't be judged there.
pub trait ClearSlots {
    ghost pairs: { Self → List (RuleId × Slot) };

    /// Whether it is known that a rule breaks nowhere at a slot.
    fn has(&self, rule: RuleId, slot: Slot) -> bool
        ensures { result ≡ true → IsAmong (rule, slot) (pairs self.now) };
}

/// Nothing is known to be clear.
#[derive(Drop)]
pub struct NoneClear;

impl ClearSlots for NoneClear {
    ghost pairs = { λ s. [] };

    fn has(&self, _rule: RuleId, _slot: Slot) -> bool {
        false
    }
}

//! The group.
ghost use Rattle.std.specs.Prelude.{◌≡◌, refl};
ghost use Rattle.rule_history.specs.Answered.{local_answer};
ghost use Rattle.rule_table.specs.Judged.{found_all};
ghost use Rattle.rule_table.specs.GroupLaws.{all_own, all_once};
ghost use Rattle.message_rules.specs.Message.{error_rules, other_rules, message_rules};

use feed_values::Entity;
use rt_outside::Steps;
use rule_clear::{Listed, LocalRule, Look};
use rule_table::{Both, EntityKey, FindingList, RuleId, Rules};
use std::alloc::{AllocError, Global};
use std::sync::ledger::Ledger;
use timetable::Timetable;

const ERRORS: &[RuleId] = &[
    RuleId::E001,
    RuleId::E002,
    RuleId::E020,
    RuleId::E021,
    RuleId::E022,
    RuleId::E025,
    RuleId::E031,
    RuleId::E032,
    RuleId::E033,
    RuleId::E036,
    RuleId::E037,
    RuleId::E039,
    RuleId::E040,
    RuleId::E041,
    RuleId::E042,
    RuleId::E043,
    RuleId::E044,
];

const OTHERS: &[RuleId] = &[
    RuleId::W001,
    RuleId::W002,
    RuleId::W006,
    RuleId::W009,
    RuleId::X002,
];

/// The rules within one message, in the order of their texts.
#[derive(Drop)]
pub struct MessageGroup {
    inner: Both<Listed, Listed>,
    ghost errors: { inner.first.rules.now ≡ error_rules },
    ghost others: { inner.second.rules.now ≡ other_rules },
}

impl MessageGroup {
    pub fn new() -> MessageGroup {
        let errors = Listed::new(ERRORS, Look::Soundness);
        let others = Listed::new(OTHERS, Look::Relationships);
        MessageGroup {
            inner: Both::new(errors, others),
        }
    }
}

impl Rules for MessageGroup {
    ghost rules = { λ _. message_rules };
}

impl LocalRule for MessageGroup {
    ghost findings = { λ _ t k e. found_all message_rules (local_answer t k e) k e };

    ghost own = { λ _ t k e. all_own message_rules (local_answer t k e) k e };

    ghost once = { λ _ t k e. all_once message_rules (local_answer t k e) k e refl };

    fn judge<L: Ledger>(
        &self,
        alloc: Global,
        table: &Timetable,
        key: &EntityKey,
        entity: &Entity,
        out: &mut FindingList,
        steps: &mut Steps<L>,
    ) -> Result<(), AllocError> {
        self.inner.judge(alloc, table, key, entity, out, steps)
    }
}

//! The group.
ghost use Rattle.std.specs.Prelude.{◌≡◌};
ghost use Rattle.rule_history.specs.Answered.{local_answer};
ghost use Rattle.rule_table.specs.Judged.{found_all};
ghost use Rattle.rule_table.specs.GroupLaws.{all_own, all_once};
ghost use Rattle.schedule_rules.specs.Schedule.{schedule_rules, schedule_apart};

use feed_values::Entity;
use rt_outside::Steps;
use rule_clear::{Listed, LocalRule, Look};
use rule_table::{EntityKey, FindingList, RuleId, Rules};
use std::alloc::{AllocError, Global};
use std::sync::ledger::Ledger;
use timetable::Timetable;

const RULES: &[RuleId] = &[
    RuleId::E003,
    RuleId::E004,
    RuleId::E006,
    RuleId::E009,
    RuleId::E011,
    RuleId::E013,
    RuleId::E015,
    RuleId::E016,
    RuleId::E019,
    RuleId::E023,
    RuleId::E024,
    RuleId::E030,
    RuleId::E034,
    RuleId::E035,
    RuleId::E045,
    RuleId::E046,
    RuleId::E051,
    RuleId::W005,
];

/// The rules against the timetable, in the order of their texts.
#[derive(Drop)]
pub struct ScheduleGroup {
    inner: Listed,
    ghost listed: { inner.rules.now ≡ schedule_rules },
}

impl ScheduleGroup {
    #[tactic(auto, unfolding(crate::specs::Schedule::schedule_rules))]
    pub fn new() -> ScheduleGroup {
        ScheduleGroup {
            inner: Listed::new(RULES, Look::Timetable),
        }
    }
}

impl Rules for ScheduleGroup {
    ghost rules = { λ _. schedule_rules };
}

impl LocalRule for ScheduleGroup {
    ghost findings = { λ _ t k e. found_all schedule_rules (local_answer t k e) k e };

    ghost own = { λ _ t k e. all_own schedule_rules (local_answer t k e) k e };

    ghost once = { λ _ t k e. all_once schedule_rules (local_answer t k e) k e schedule_apart };

    fn judge<L: Ledger>(
        &self,
        alloc: Global,
        table: &Timetable,
        key: &EntityKey,
        entity: &Entity,
        out: &mut FindingList,
        steps: &mut Steps<L>,
    ) -> Result<(), AllocError> {
        if !table.is_present() {
            self.inner.skip(steps);
            return Ok(());
        }
        self.inner.judge(alloc, table, key, entity, out, steps)
    }
}

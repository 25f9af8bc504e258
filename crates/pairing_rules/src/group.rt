//! The group.
ghost use Rattle.std.specs.Prelude.{◌≡◌, refl};
ghost use Rattle.rule_table.specs.Answers.{pair_answer};
ghost use Rattle.rule_table.specs.Judged.{found_all};
ghost use Rattle.rule_table.specs.GroupLaws.{all_own, all_once};
ghost use Rattle.pairing_rules.specs.Pairing.{pairing_rules};
ghost use Rattle.pairing_rules.specs.Agreeing.{rules_agree, rules_none};

use crate::answers::PairAnswers;
use feed_values::Entity;
use rt_outside::Steps;
use rule_table::{EntityKey, FindingList, PairRule, PairView, RuleId, Rules, judge_rules};
use std::alloc::{AllocError, Global};
use std::sync::ledger::Ledger;

const RULES: &[RuleId] = &[RuleId::E047, RuleId::E052, RuleId::W003];

/// The rules on trip updates and vehicle positions together, in the order of their texts.
#[derive(Drop)]
pub struct PairGroup {
    rules: &'static [RuleId],
    ghost listed: { rules.now ≡ pairing_rules },
}

impl PairGroup {
    pub fn new() -> PairGroup {
        PairGroup { rules: RULES }
    }
}

impl Rules for PairGroup {
    ghost rules = { λ _. pairing_rules };
}

impl PairRule for PairGroup {
    ghost findings = { λ _ u k e. found_all pairing_rules (pair_answer u k e) k e };

    ghost agree = { λ _ u v k e h. rules_agree u v k e h };

    ghost none = { λ _ u k e h. rules_none u k e h };

    ghost own = { λ _ u k e. all_own pairing_rules (pair_answer u k e) k e };

    ghost once = { λ _ u k e. all_once pairing_rules (pair_answer u k e) k e refl };

    fn judge<P: PairView, L: Ledger>(
        &self,
        alloc: Global,
        view: &P,
        key: &EntityKey,
        entity: &Entity,
        out: &mut FindingList,
        steps: &mut Steps<L>,
    ) -> Result<(), AllocError> {
        let answers = PairAnswers { view, key, entity };
        judge_rules(alloc, &answers, self.rules, key, entity, out, steps)
    }
}

//! Rules of the table, one after the other.
ghost use Rattle.std.specs.Prelude.{◌≡◌, ◌+◌, true, length};
ghost use Rattle.rule_table.specs.Groups.{are_apart};
ghost use Rattle.rule_table.specs.GroupLaws.{all_own, all_once};
ghost use Rattle.rule_table.specs.Judged.{found_all};
ghost use Rattle.rule_history.specs.Answered.{local_answer};

use crate::clear::Look;
use crate::local_rule::{LocalAnswers, LocalRule};
use feed_values::Entity;
use rt_outside::Steps;
use rule_table::{EntityKey, FindingList, RuleId, Rules, judge_unclear};
use std::alloc::{AllocError, Global};
use std::sync::ledger::Ledger;
use timetable::Timetable;

/// Some rules of the table, none of them twice.
#[derive(Drop)]
pub struct Listed {
    rules: &'static [RuleId],
    looks_for: Look,
    ghost apart: { are_apart rules.now ≡ true },
}

impl Listed {
    /// These rules, judged after a look at the stop time updates of an entity: those that it is for aren't judged at each update where all are
    /// as they want it.
    pub fn new(rules: &'static [RuleId], looks_for: Look) -> Listed
        requires { are_apart rules.now ≡ true }
        ensures { result.rules.now ≡ rules.now }
    {
        Listed { rules, looks_for }
    }

    /// Ticks once for each rule, as judging does, and judges none of them: for what is known to be empty.
    pub fn skip<L: Ledger>(&self, steps: &mut Steps<L>)
        ensures { steps.new ≡ steps.old + length self.now.rules.now }
    {
        for _ in self.rules {
            steps.tick();
        }
    }
}

impl Rules for Listed {
    ghost rules = { λ s. s.rules.now };
}

impl LocalRule for Listed {
    ghost findings = { λ s t k e. found_all s.rules.now (local_answer t k e) k e };

    ghost own = { λ s t k e. all_own s.rules.now (local_answer t k e) k e };

    ghost once = { λ s t k e. all_once s.rules.now (local_answer t k e) k e s.apart };

    fn judge<L: Ledger>(
        &self,
        alloc: Global,
        table: &Timetable,
        key: &EntityKey,
        entity: &Entity,
        out: &mut FindingList,
        steps: &mut Steps<L>,
    ) -> Result<(), AllocError> {
        let answers = LocalAnswers { table, key, entity };
        let clear = self.looks_for.at(table, entity);
        judge_unclear(alloc, &answers, &clear, self.rules, key, entity, out, steps)
    }
}

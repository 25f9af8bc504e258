//! The group on the timestamps of entities.
ghost use Rattle.std.specs.Prelude.{◌≡◌, refl};
ghost use Rattle.std.specs.Option.{option_map};
ghost use Rattle.feed_values.specs.Cells.{cell_value};
ghost use Rattle.feed_values.specs.Views.{entity_value, natural};
ghost use Rattle.rule_table.specs.Asked.{ask_value};
ghost use Rattle.rule_table.specs.Answers.{bound_answer, limit_answer};
ghost use Rattle.rule_table.specs.Judged.{found_all};
ghost use Rattle.rule_table.specs.GroupLaws.{all_own, all_once};
ghost use Rattle.history_rules.specs.Rules.{bound_rules, bound_of};
ghost use Rattle.history_rules.specs.Exact.{rules_exact, rules_at};

use feed_values::{CellRef, Entity, FeedHeader, Slot, field_at, header_at};
use rt_outside::Steps;
use rule_table::{Answers, AskRef, BoundRule, EntityKey, FindingList, RuleId, Rules, judge_rules};
use std::alloc::{AllocError, Global};
use std::sync::ledger::Ledger;

const RULES: &[RuleId] = &[RuleId::E012, RuleId::E050];

/// An entity under its key, with the two bounds of its timestamps.
#[derive(Drop)]
struct BoundAnswers<'a> {
    header: &'a FeedHeader,
    moment: u64,
    key: &'a EntityKey,
    entity: &'a Entity,
}

fn limit_answer<'a>(header: &'a FeedHeader, moment: u64, ask: AskRef<'_>) -> Option<CellRef<'a>>
    ensures { option_map cell_value result ≡ limit_answer (natural header.now.timestamp) moment (ask_value ask.entry) }
{
    match ask {
        AskRef::HeadNow(Slot::S3) => Some(header_at(header, Slot::S3)),
        AskRef::Moment => Some(CellRef::Number(moment as i128)),
        _ => None,
    }
}

impl Answers for BoundAnswers<'_> {
    ghost answers = { λ s. bound_answer (natural s.header.now.timestamp) s.moment s.key.now (entity_value s.entity.now) };

    fn answer<'a>(&'a self, ask: AskRef<'_>) -> Option<CellRef<'a>> {
        match ask {
            AskRef::Cell(path) => Some(field_at(self.entity, path)),
            AskRef::Occurrence => Some(CellRef::Number(self.key.occurrence as i128)),
            _ => limit_answer(self.header, self.moment, ask),
        }
    }
}

/// The rules on the timestamps of an entity, in the order of their texts.
#[derive(Drop)]
pub struct BoundGroup {
    rules: &'static [RuleId],
    ghost listed: { rules.now ≡ bound_rules },
}

impl BoundGroup {
    pub fn new() -> BoundGroup {
        BoundGroup { rules: RULES }
    }
}

impl Rules for BoundGroup {
    ghost rules = { λ _. bound_rules };
}

impl BoundRule for BoundGroup {
    ghost findings = { λ _ t m k e. found_all bound_rules (bound_answer t m k e) k e };

    ghost bound = { λ _ rule. bound_of rule };

    ghost own = { λ _ t m k e. all_own bound_rules (bound_answer t m k e) k e };

    ghost once = { λ _ t m k e. all_once bound_rules (bound_answer t m k e) k e refl };

    ghost exact = { λ _ t m k e rule slot held is has. rules_exact t m k e rule slot held is has };

    ghost at = { λ _ t m k e. rules_at t m k e };

    fn judge<L: Ledger>(
        &self,
        alloc: Global,
        header: &FeedHeader,
        moment: u64,
        key: &EntityKey,
        entity: &Entity,
        out: &mut FindingList,
        steps: &mut Steps<L>,
    ) -> Result<(), AllocError> {
        let answers = BoundAnswers {
            header,
            moment,
            key,
            entity,
        };
        judge_rules(alloc, &answers, self.rules, key, entity, out, steps)
    }
}

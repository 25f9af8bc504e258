//! The group on headers.
ghost use Rattle.std.specs.Prelude.{◌≡◌, option_copied, refl};
ghost use Rattle.std.specs.Option.{option_map};
ghost use Rattle.feed_values.specs.Cells.{cell_value};
ghost use Rattle.feed_values.specs.Views.{feed_header_value};
ghost use Rattle.rule_table.specs.Asked.{ask_value};
ghost use Rattle.rule_table.specs.Answers.{Heads, heads_answer, previous_cell};
ghost use Rattle.rule_table.specs.Judged.{head_found_all};
ghost use Rattle.history_rules.specs.Rules.{head_rules};
ghost use Rattle.rule_table.specs.HeadLaws.{heads_own, heads_once};

use feed_values::{CellRef, FeedHeader, Slot, header_at};
use rt_outside::Steps;
use rule_table::{Answers, AskRef, FindingList, HeadRule, RuleId, Rules, judge_heads, truth_cell};
use std::alloc::{AllocError, Global};
use std::sync::ledger::Ledger;

const RULES: &[RuleId] = &[
    RuleId::E001,
    RuleId::E017,
    RuleId::E018,
    RuleId::E038,
    RuleId::E048,
    RuleId::E049,
    RuleId::E050,
    RuleId::W001,
    RuleId::W007,
    RuleId::W008,
];

fn previous_cell<'a>(previous: Option<&'a FeedHeader>, slot: Slot) -> CellRef<'a>
    ensures { cell_value result ≡ previous_cell (option_map feed_header_value (option_copied previous.entry)) slot }
{
    match previous {
        Some(header) => header_at(header, slot),
        None => CellRef::Missing,
    }
}

/// What is known of a feed beside its entities. `before` is None, and `changed` false, where the feed has no snapshot before;
/// `moment` is POSIX time in seconds.
#[derive(Drop)]
pub struct HeadAnswers<'a> {
    pub now: &'a FeedHeader,
    pub before: Option<&'a FeedHeader>,
    pub changed: bool,
    pub moment: u64,
}

impl Answers for HeadAnswers<'_> {
    ghost answers = { λ s. heads_answer (record { header = feed_header_value s.now.now; previous = option_map feed_header_value (option_copied s.before); changed = s.changed; moment = s.moment }) };

    fn answer<'a>(&'a self, ask: AskRef<'_>) -> Option<CellRef<'a>> {
        match ask {
            AskRef::HeadNow(slot) => Some(header_at(self.now, slot)),
            AskRef::HeadBefore(slot) => Some(previous_cell(self.before, slot)),
            AskRef::Moment => Some(CellRef::Number(self.moment as i128)),
            AskRef::EntitiesChanged => Some(truth_cell(self.changed)),
            _ => None,
        }
    }
}

/// The rules on the header of a feed, in the order of their texts.
#[derive(Drop)]
pub struct HeadGroup {
    rules: &'static [RuleId],
    ghost listed: { rules.now ≡ head_rules },
}

impl HeadGroup {
    pub fn new() -> HeadGroup {
        HeadGroup { rules: RULES }
    }
}

impl Rules for HeadGroup {
    ghost rules = { λ _. head_rules };
}

impl HeadRule for HeadGroup {
    ghost findings = { λ _ f heads. head_found_all head_rules (heads_answer heads) f };

    ghost own = { λ _ f heads. heads_own head_rules (heads_answer heads) f };

    ghost once = { λ _ f heads. heads_once head_rules (heads_answer heads) f refl };

    fn judge<L: Ledger>(
        &self,
        alloc: Global,
        feed: u8,
        now: &FeedHeader,
        before: Option<&FeedHeader>,
        changed: bool,
        moment: u64,
        out: &mut FindingList,
        steps: &mut Steps<L>,
    ) -> Result<(), AllocError> {
        let answers = HeadAnswers {
            now,
            before,
            changed,
            moment,
        };
        judge_heads(alloc, &answers, self.rules, feed, out, steps)
    }
}

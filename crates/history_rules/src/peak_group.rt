//! The group on what a vehicle told before.
ghost use Rattle.std.specs.Prelude.{◌≡◌, refl};
ghost use Rattle.std.specs.Option.{option_map};
ghost use Rattle.feed_values.specs.Cells.{cell_value};
ghost use Rattle.feed_values.specs.Views.{entity_value};
ghost use Rattle.rule_table.specs.Asked.{ask_value};
ghost use Rattle.rule_table.specs.Answers.{peak_answer, peaks_answer};
ghost use Rattle.rule_table.specs.Judged.{found_all};
ghost use Rattle.rule_table.specs.GroupLaws.{all_own, all_once};
ghost use Rattle.history_rules.specs.Rules.{peak_rules};
ghost use Rattle.history_rules.specs.SamePeaks.{peaks_same};

use feed_values::{CellRef, Entity, field_at, natural_cell};
use rt_outside::Steps;
use rule_table::{
    Answers, AskRef, EntityKey, FindingList, PeakRule, PeakView, RuleId, Rules, judge_rules,
};
use std::alloc::{AllocError, Global};
use std::sync::ledger::Ledger;

const RULES: &[RuleId] = &[RuleId::X001];

fn peaks_answer<'a, V: PeakView>(view: &'a V, ask: AskRef<'_>) -> Option<CellRef<'a>>
    ensures { option_map cell_value result ≡ peaks_answer (V.peaks view.now) (ask_value ask.entry) }
{
    match ask {
        AskRef::Peak(feed, vehicle) => Some(natural_cell(view.peak(feed, vehicle))),
        _ => None,
    }
}

/// An entity under its key, with the peaks of all feeds.
#[derive(Drop)]
pub struct PeakAnswers<'a, V: PeakView> {
    pub view: &'a V,
    pub key: &'a EntityKey,
    pub entity: &'a Entity,
}

impl<V: PeakView> Answers for PeakAnswers<'_, V> {
    ghost answers = { λ s. peak_answer (V.peaks s.view.now) s.key.now (entity_value s.entity.now) };

    fn answer<'a>(&'a self, ask: AskRef<'_>) -> Option<CellRef<'a>> {
        match ask {
            AskRef::Cell(path) => Some(field_at(self.entity, path)),
            AskRef::Occurrence => Some(CellRef::Number(self.key.occurrence as i128)),
            _ => peaks_answer(self.view, ask),
        }
    }
}

/// The rules on what a vehicle told before, in the order of their texts.
#[derive(Drop)]
pub struct PeakGroup {
    rules: &'static [RuleId],
    ghost listed: { rules.now ≡ peak_rules },
}

impl PeakGroup {
    pub fn new() -> PeakGroup {
        PeakGroup { rules: RULES }
    }
}

impl Rules for PeakGroup {
    ghost rules = { λ _. peak_rules };
}

impl PeakRule for PeakGroup {
    ghost findings = { λ _ u k e. found_all peak_rules (peak_answer u k e) k e };

    ghost same = { λ _ u v k e h. peaks_same u v k e h };

    ghost own = { λ _ u k e. all_own peak_rules (peak_answer u k e) k e };

    ghost once = { λ _ u k e. all_once peak_rules (peak_answer u k e) k e refl };

    fn judge<V: PeakView, L: Ledger>(
        &self,
        alloc: Global,
        view: &V,
        key: &EntityKey,
        entity: &Entity,
        out: &mut FindingList,
        steps: &mut Steps<L>,
    ) -> Result<(), AllocError> {
        let answers = PeakAnswers { view, key, entity };
        judge_rules(alloc, &answers, self.rules, key, entity, out, steps)
    }
}

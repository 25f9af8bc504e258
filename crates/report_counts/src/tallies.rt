//! The lines of each rule.
ghost use Rattle.std.specs.Prelude.{◌≡◌, IfOk, OnOk, List, map, option_copied, slice_get};
ghost use Rattle.rule_table.specs.Rules.{rule_number};
ghost use Rattle.rule_table.specs.Table.{all_rules};
ghost use Rattle.rule_table.specs.declared.rule.RuleId.{RuleId};
ghost use Rattle.rule_tally.specs.Tallies.{Told, told};
ghost use Rattle.report_counts.specs.Tallies.{findings_at, none_yet, one_more_of, tallies_of};

use rule_table::{RuleId, all_rules};
use rule_tally::{Behind, Tally, Telling};
use std::alloc::{AllocError, Global};
use std::marker::Model;

/// The tally of each rule. Contracts see the list of them, in the order of the rules' texts.
#[derive(Drop)]
pub struct Tallies {
    tallies: Vec<Tally>,
}

impl Model for Tallies {
    ghost use Rattle.std.specs.Prelude.{List};
    ghost use Rattle.rule_tally.specs.declared.tally.Tally.{Tally};

    ghost Value = { List Tally };

    ghost view = { λ s. s.tallies.items };
}

impl Tallies {
    /// Those of no lines.
    #[tactic(auto, unfolding(crate::specs::Tallies::tallies_of))]
    pub fn new(alloc: Global) -> Result<Tallies, AllocError>
        ensures { IfOk result (λ tallies. tallies ≡ tallies_of none_yet) }
    {
        let rules = all_rules();
        let mut tallies = Vec::with_capacity(alloc, rules.len())?;
        for _rule in rules {
            let tally = Tally::new(alloc);
            tallies.push(tally)?;
        }
        Ok(Tallies { tallies })
    }

    /// Takes one line more, which tells this of the rule, and stands behind this.
    pub fn take(
        &mut self,
        alloc: Global,
        rule: RuleId,
        telling: &Telling,
        behind: Behind,
        line: &[u8],
    ) -> Result<(), AllocError>
        ensures { OnOk result ((before : RuleId → List Told) → self.old ≡ tallies_of before → self.new ≡ tallies_of (one_more_of before rule (told telling.now behind line.now))) }
    {
        let index = rule.number() as usize;
        if index < self.tallies.len() {
            let tally = &mut self.tallies[index];
            return tally.take(alloc, telling, behind, line);
        }
        Ok(())
    }

    /// What the lines of a rule come to.
    pub fn get(&self, rule: RuleId) -> Option<&Tally>
        ensures { option_copied result ≡ slice_get self.now (rule_number rule) }
    {
        self.tallies.get(rule.number() as usize)
    }

    /// How many lines of a rule are findings or openings.
    pub fn findings(&self, rule: RuleId) -> u64
        ensures { result ≡ findings_at self.now rule }
    {
        match self.get(rule) {
            Some(tally) => tally.findings,
            None => 0,
        }
    }
}

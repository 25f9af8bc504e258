//! Findings.
ghost use Rattle.std.specs.Prelude.{◌≡◌, ◌<◌, [], ◌∷◌, ◌++◌, length, IfOk, OnOk, OnErr, slice_get, Some};
ghost use Rattle.rule_table.specs.Found.{Found};
ghost use Rattle.rule_table.specs.Broken.{Breaks};

use crate::fact::{Fact, copied_facts};
use crate::place::Place;
use crate::rule::RuleId;
use feed_values::Items;
use std::alloc::{AllocError, Global};
use std::marker::Model;

/// A rule, a place and the facts that it cites there. They break the rule, in every finding that there is.
#[derive(Drop)]
pub struct Finding {
    rule: RuleId,
    place: Place,
    facts: Items<Fact>,
}

impl Model for Finding {
    ghost use Rattle.rule_table.specs.Found.{Found};
    ghost use Rattle.rule_table.specs.Broken.{Breaks};

    ghost Value = { Found };

    ghost view = { λ f. record { rule = f.rule; place = f.place; facts = f.facts } };

    ghost invariant = { λ f. Breaks f.rule f.place f.facts };
}

impl Finding {
    /// Makes a finding of facts that break a rule at a place.
    pub fn new(rule: RuleId, place: Place, facts: Items<Fact>) -> Finding
        requires { Breaks rule place facts }
        ensures rule { result.rule ≡ rule }
        ensures place { result.place ≡ place }
        ensures facts { result.facts ≡ facts }
    {
        Finding { rule, place, facts }
    }

    pub fn rule(&self) -> RuleId
        ensures { result ≡ self.now.rule }
    {
        self.rule
    }

    pub fn place(&self) -> &Place
        ensures { result.now ≡ self.now.place }
    {
        &self.place
    }

    /// The facts, in the order in which the rule cites them.
    pub fn facts(&self) -> &Items<Fact>
        ensures facts { result.now ≡ self.now.facts }
        ensures breaks { Breaks self.now.rule self.now.place self.now.facts }
    {
        &self.facts
    }

    /// Makes the finding again.
    pub fn clone(&self, alloc: Global) -> Result<Finding, AllocError>
        ensures { IfOk result (λ copy. copy ≡ self.now) }
    {
        let place = self.place.clone()?;
        let facts = copied_facts(alloc, self.facts.as_slice())?;
        Ok(Finding {
            rule: self.rule,
            place,
            facts,
        })
    }
}

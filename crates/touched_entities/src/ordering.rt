//! What is of rules, in the order of these.
ghost use Rattle.std.specs.Prelude.{◌≡◌, ◌++◌, IfOk, OnOk};
ghost use Rattle.rule_table.specs.ByRule.{each_by_rule};
ghost use Rattle.rule_table.specs.Table.{all_rules};

use entity_parts::{Closed, Opened};
use feed_values::Items;
use rule_table::RuleId;
use std::alloc::AllocError;

/// What is of a rule.
pub(crate) trait OfRule {
    ghost use Rattle.std.specs.Prelude.{◌≡◌};
    ghost use Rattle.rule_table.specs.declared.rule.RuleId.{RuleId as Rule};

    ghost rule_of: { Self → Rule };

    fn rule(&self) -> RuleId
        ensures { result ≡ rule_of self.now };
}

impl OfRule for Opened {
    ghost rule_of = { λ x. x.finding.rule };

    fn rule(&self) -> RuleId {
        self.finding.rule()
    }
}

impl OfRule for Closed {
    ghost rule_of = { λ x. x.rule };

    fn rule(&self) -> RuleId {
        self.rule
    }
}

/// Things rule by rule, in the order of the rules' texts; those of one rule stay in their order.
pub(crate) fn rule_by_rule<T: OfRule + Drop>(items: Items<T>) -> Result<Items<T>, AllocError>
    ensures { IfOk result (λ list. list ≡ each_by_rule T.rule_of all_rules items) }
{
    let mut list = items.into_vec();
    list.sort_by_key(|item| item.rule().number())?;
    Ok(Items::from_vec(list))
}

/// Appends things to others.
pub(crate) fn append<T: Drop>(all: &mut Items<T>, items: Items<T>) -> Result<(), AllocError>
    ensures { OnOk result (all.new ≡ all.old ++ items) }
{
    for item in items.into_vec() {
        all.push(item)?;
    }
    Ok(())
}

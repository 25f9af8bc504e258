//! Findings in the order of their rules.
ghost use Rattle.std.specs.Prelude.{◌≡◌, IfOk};
ghost use Rattle.judging.specs.Ruled.{in_rule_order};

use feed_values::Items;
use rule_table::Finding;
use std::alloc::AllocError;

/// Findings rule by rule, in the order of the rules' texts; those of one rule stay in their order.
pub fn rule_by_rule(findings: Items<Finding>) -> Result<Items<Finding>, AllocError>
    ensures { IfOk result (λ list. list ≡ in_rule_order findings) }
{
    let mut list = findings.into_vec();
    list.sort_by_key(|finding| finding.rule().number())?;
    Ok(Items::from_vec(list))
}

//! Rules by their texts.
ghost use Rattle.std.specs.Prelude.{◌≡◌};
ghost use Rattle.finding_names.specs.Names.{rule_named};

use rule_table::{RuleId, all_rules};

/// The rule of a text, such as `E001`.
pub fn rule_named(text: &str) -> Option<RuleId>
    ensures { result ≡ rule_named text.now }
{
    all_rules().iter().copied().find(|rule| rule.name() == text)
}

//! Values that judge rules.
ghost use Rattle.std.specs.Prelude.{List};
ghost use Rattle.rule_table.specs.declared.rule.RuleId.{RuleId};

/// A value that judges some rules: one, or a group.
pub trait Rules {
    /// Its rules, in the order in which it judges them.
    ghost rules: { Self → List RuleId };
}

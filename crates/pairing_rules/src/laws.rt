//! A law of lists of pairing rows.
ghost use Rattle.std.specs.Prelude.{List};
ghost use Rattle.feed_values.specs.Schema.{Value};
ghost use Rattle.feed_values.specs.Messages.{entity};
ghost use Rattle.rule_table.specs.declared.key.EntityKey.{EntityKey};
ghost use Rattle.rule_table.specs.Pairs.{PairRow};
ghost use Rattle.rule_table.specs.PairAgree.{Agree};
ghost use Rattle.pairing_rules.specs.ByKind.{AreAlike};

/// Lists that have the same rows of each kind, in the same order, answer alike for every entity, so that it doesn't matter how
/// the rows of the two kinds stand between each other.
pub fn alike_rows_agree()
    ensures { (u v : List PairRow) → AreAlike u v → (key : EntityKey) (e : Value entity) → Agree u v key e }
{}

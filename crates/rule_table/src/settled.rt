//! Places at which the field that stands there, or that none does, settles that a rule isn't broken.
ghost use Rattle.std.specs.Prelude.{◌≡◌, true, []};
ghost use Rattle.rule_table.specs.declared.key.EntityKey.{EntityKey};
ghost use Rattle.rule_table.specs.declared.place.Place.TheVariants as place;
ghost use Rattle.rule_table.specs.Judged.{found_at};
ghost use Rattle.rule_table.specs.Settled.{settled_by};

use crate::answers::Answers;
use crate::passing::is_given;
use crate::rule::RuleId;
use feed_values::Path;

/// Whether a place whose field is given, or is missing, doesn't break a rule, as the rule's row tells.
fn settles(rule: RuleId, given: bool) -> bool
    ensures { result ≡ settled_by rule given }
{
    match rule {
        RuleId::E022 | RuleId::E038 | RuleId::E046 | RuleId::X002 => false,
        RuleId::E009
        | RuleId::E048
        | RuleId::E049
        | RuleId::W001
        | RuleId::W002
        | RuleId::W005
        | RuleId::W006
        | RuleId::W009 => given,
        _ => !given,
    }
}

/// Whether one look at the field of an entity's place settles that it doesn't break a rule.
pub(crate) fn is_settled<A: Answers>(answers: &A, rule: RuleId, path: Path) -> bool
    ensures { result ≡ true → (key : EntityKey) → found_at rule (A.answers answers.now) (place.Entity key path) ≡ [] }
{
    match answers.cell(path) {
        Some(cell) => settles(rule, is_given(cell)),
        None => false,
    }
}

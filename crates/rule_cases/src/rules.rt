//! Rules by their texts.

use rule_table::RuleId;

const RULES: [RuleId; 53] = [
    RuleId::E001,
    RuleId::E002,
    RuleId::E003,
    RuleId::E004,
    RuleId::E006,
    RuleId::E009,
    RuleId::E011,
    RuleId::E012,
    RuleId::E013,
    RuleId::E015,
    RuleId::E016,
    RuleId::E017,
    RuleId::E018,
    RuleId::E019,
    RuleId::E020,
    RuleId::E021,
    RuleId::E022,
    RuleId::E023,
    RuleId::E024,
    RuleId::E025,
    RuleId::E030,
    RuleId::E031,
    RuleId::E032,
    RuleId::E033,
    RuleId::E034,
    RuleId::E035,
    RuleId::E036,
    RuleId::E037,
    RuleId::E038,
    RuleId::E039,
    RuleId::E040,
    RuleId::E041,
    RuleId::E042,
    RuleId::E043,
    RuleId::E044,
    RuleId::E045,
    RuleId::E046,
    RuleId::E047,
    RuleId::E048,
    RuleId::E049,
    RuleId::E050,
    RuleId::E051,
    RuleId::E052,
    RuleId::W001,
    RuleId::W002,
    RuleId::W003,
    RuleId::W005,
    RuleId::W006,
    RuleId::W007,
    RuleId::W008,
    RuleId::W009,
    RuleId::X001,
    RuleId::X002,
];

// All rules. A caller's proof doesn't see them, which would make it slow.
fn rules() -> &'static [RuleId] {
    &RULES
}

/// The rule of a text.
pub fn rule_of(text: &str) -> Option<RuleId> {
    for rule in rules() {
        if rule.name() == text {
            return Some(*rule);
        }
    }
    None
}

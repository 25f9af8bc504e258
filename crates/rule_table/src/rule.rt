//! The rules by name.
ghost use Rattle.std.specs.Prelude.{◌≡◌};
ghost use Rattle.rule_table.specs.Rules.{rule_name, rule_number, level};

/// A rule, in the order of the rules' texts. `docs/rules.md` says what each is for.
///
/// The names that begin with E are errors, those with W warnings, and those with X errors of this profile's own. The
/// numbers are those of MobilityData's gtfs-realtime-validator, RULES.md; what a rule says is its row in `specs/Table.antt`.
#[derive(Clone, Copy, PartialEq, Eq)]
pub enum RuleId {
    E001,
    E002,
    E003,
    E004,
    E006,
    E009,
    E011,
    E012,
    E013,
    E015,
    E016,
    E017,
    E018,
    E019,
    E020,
    E021,
    E022,
    E023,
    E024,
    E025,
    E030,
    E031,
    E032,
    E033,
    E034,
    E035,
    E036,
    E037,
    E038,
    E039,
    E040,
    E041,
    E042,
    E043,
    E044,
    E045,
    E046,
    E047,
    E048,
    E049,
    E050,
    E051,
    E052,
    W001,
    W002,
    W003,
    W005,
    W006,
    W007,
    W008,
    W009,
    X001,
    X002,
}

impl RuleId {
    /// The rule's text, such as `E001`.
    pub fn name(self) -> &'static str
        ensures { result.now ≡ rule_name self }
    {
        match self {
            RuleId::E001 => "E001",
            RuleId::E002 => "E002",
            RuleId::E003 => "E003",
            RuleId::E004 => "E004",
            RuleId::E006 => "E006",
            RuleId::E009 => "E009",
            RuleId::E011 => "E011",
            RuleId::E012 => "E012",
            RuleId::E013 => "E013",
            RuleId::E015 => "E015",
            RuleId::E016 => "E016",
            RuleId::E017 => "E017",
            RuleId::E018 => "E018",
            RuleId::E019 => "E019",
            RuleId::E020 => "E020",
            RuleId::E021 => "E021",
            RuleId::E022 => "E022",
            RuleId::E023 => "E023",
            RuleId::E024 => "E024",
            RuleId::E025 => "E025",
            RuleId::E030 => "E030",
            RuleId::E031 => "E031",
            RuleId::E032 => "E032",
            RuleId::E033 => "E033",
            RuleId::E034 => "E034",
            RuleId::E035 => "E035",
            RuleId::E036 => "E036",
            RuleId::E037 => "E037",
            RuleId::E038 => "E038",
            RuleId::E039 => "E039",
            RuleId::E040 => "E040",
            RuleId::E041 => "E041",
            RuleId::E042 => "E042",
            RuleId::E043 => "E043",
            RuleId::E044 => "E044",
            RuleId::E045 => "E045",
            RuleId::E046 => "E046",
            RuleId::E047 => "E047",
            RuleId::E048 => "E048",
            RuleId::E049 => "E049",
            RuleId::E050 => "E050",
            RuleId::E051 => "E051",
            RuleId::E052 => "E052",
            RuleId::W001 => "W001",
            RuleId::W002 => "W002",
            RuleId::W003 => "W003",
            RuleId::W005 => "W005",
            RuleId::W006 => "W006",
            RuleId::W007 => "W007",
            RuleId::W008 => "W008",
            RuleId::W009 => "W009",
            RuleId::X001 => "X001",
            RuleId::X002 => "X002",
        }
    }

    /// Its place in the order of the rules' texts, from 0.
    pub fn number(self) -> u8
        ensures { result ≡ rule_number self }
    {
        self as u8
    }

    /// How much a finding of the rule weighs, the first letter of its text: `E` an error, `W` a warning, `X` an error of this
    /// profile's own.
    pub fn level(self) -> &'static str
        ensures { result.now ≡ level self }
    {
        match self {
            RuleId::W001
            | RuleId::W002
            | RuleId::W003
            | RuleId::W005
            | RuleId::W006
            | RuleId::W007
            | RuleId::W008
            | RuleId::W009 => "W",
            RuleId::X001 | RuleId::X002 => "X",
            _ => "E",
        }
    }
}

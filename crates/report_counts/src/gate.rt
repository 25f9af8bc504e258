//! Whether a report fails.
ghost use Rattle.std.specs.Prelude.{◌≡◌};
ghost use Rattle.report_counts.specs.Gate.{fails, has_errors, has_findings, is_empty_or_broken, is_error};

use crate::counts::Counts;
use rule_table::{RuleId, all_rules};

/// What a report fails on.
#[derive(Clone, Copy)]
pub enum FailOn {
    /// A finding or an opening whose rule isn't a warning, or what follows.
    Error,
    /// Any finding or opening, a refused snapshot or timetable, a line that is no report's, or no line at all.
    Warning,
    /// Nothing.
    Never,
}

impl FailOn {
    /// Whether a report with these counts fails.
    pub fn fails(self, counts: &Counts) -> bool
        ensures { result ≡ fails self counts.now }
    {
        match self {
            FailOn::Error => is_empty_or_broken(counts) || has_errors(counts),
            FailOn::Warning => is_empty_or_broken(counts) || has_findings(counts),
            FailOn::Never => false,
        }
    }
}

// Whether it has no lines, a refused snapshot or timetable, or a line that is no report's.
fn is_empty_or_broken(counts: &Counts) -> bool
    ensures { result ≡ is_empty_or_broken counts.now }
{
    counts.lines == 0 || counts.refused > 0 || counts.refused_timetables > 0 || counts.foreign > 0
}

fn is_error(rule: RuleId) -> bool
    ensures { result ≡ is_error rule }
{
    rule.level() != "W"
}

fn has_errors(counts: &Counts) -> bool
    ensures { result ≡ has_errors counts.now }
{
    all_rules()
        .iter()
        .any(|rule| is_error(*rule) && counts.rules.findings(*rule) > 0)
}

fn has_findings(counts: &Counts) -> bool
    ensures { result ≡ has_findings counts.now }
{
    all_rules()
        .iter()
        .any(|rule| counts.rules.findings(*rule) > 0)
}

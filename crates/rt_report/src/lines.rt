//! The lines of findings, one after the other.
ghost use Rattle.std.specs.Prelude.{◌≡◌, ◌++◌, ◌||◌, OnOk};
ghost use Rattle.std.specs.List.{flat_map, list_any};
ghost use Rattle.rule_table.specs.Rules.{level};
ghost use Rattle.rt_report.specs.declared.finding.LineKind.TheVariants as line;
ghost use Rattle.rt_report.specs.FindingLines.{AddsText, AddsLines, standing_text, finding_text, has_error, is_error};

use crate::finding::{LineKind, finding_line};
use rule_table::{Finding, RuleId};
use std::alloc::{AllocError, Global};

/// Lines, and whether one of their findings is of an error.
#[derive(Drop)]
pub struct Lines {
    pub text: Vec<u8>,
    pub error: bool,
}

impl Lines {
    /// Appends the lines of findings.
    pub fn push(&mut self, alloc: Global, findings: &[Finding]) -> Result<(), AllocError>
        ensures { OnOk result (AddsLines self.old self.new findings.now) }
    {
        push_lines(alloc, &mut self.text, findings)?;
        self.error = self.error || has_error(findings);
        Ok(())
    }

    /// Appends the line of a finding whose rule has stood at its place since a snapshot.
    pub fn push_standing(
        &mut self,
        alloc: Global,
        finding: &Finding,
        since: u64,
    ) -> Result<(), AllocError>
        ensures { OnOk result (AddsText self.old self.new (standing_text line.Finding (record { finding = finding.now; since = since })) (is_error finding.now.rule)) }
    {
        let line = finding_line(alloc, LineKind::Finding, finding, since)?;
        self.text.extend_from_slice(&line)?;
        self.error = self.error || is_error(finding.rule());
        Ok(())
    }
}

fn push_lines(alloc: Global, text: &mut Vec<u8>, findings: &[Finding]) -> Result<(), AllocError>
    ensures { OnOk result (text.new.items ≡ text.old.items ++ flat_map finding_text findings.now) }
{
    for finding in findings {
        let line = finding_line(alloc, LineKind::Finding, finding, 0)?;
        text.extend_from_slice(&line)?;
    }
    Ok(())
}

/// Whether a rule is of level E or X.
pub fn is_error(rule: RuleId) -> bool
    ensures { result ≡ is_error rule }
{
    rule.level() == "E" || rule.level() == "X"
}

/// Whether a finding is of an error.
fn has_error(findings: &[Finding]) -> bool
    ensures { result ≡ has_error findings.now }
{
    findings.iter().any(|finding| is_error(finding.rule()))
}

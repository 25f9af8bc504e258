//! The verdict on a line.
ghost use Rattle.std.specs.Prelude.{◌≡◌, IfOk, bytes_eq};
ghost use Rattle.std.specs.List.{list_any};
ghost use Rattle.serde_json.specs.View.{view};
ghost use Rattle.report_verify.specs.Verdicts.{is_other, judged, unspelled, verdict_of};

use crate::members::text_at;
use crate::said::Said;
use crate::spelled::{spelled_in, tree_of};
use evidence::breaks;
use rule_table::Finding;
use serde_json::Value;
use std::alloc::{AllocError, Global};

/// What a line of a report is found to be.
#[derive(Drop)]
pub enum Verdict {
    /// The line of this finding, whose rule has stood at its place since this snapshot, and the facts break the rule.
    Confirmed(Finding, u64),
    /// The line of a finding, and the facts don't break the rule.
    Denied,
    /// Another line of a report: of a snapshot, of a timetable that is exchanged, of a rule that stands no more, or of a trial.
    Other,
    /// No line of a report.
    Malformed,
}

/// The verdict on a line, which is given without its line feed. It sees the line and nothing else.
pub fn verify_line(alloc: Global, line: &[u8]) -> Result<Verdict, AllocError>
    ensures { IfOk result (λ verdict. verdict ≡ verdict_of line.now) }
{
    let Some(tree) = tree_of(alloc, line)? else {
        return Ok(Verdict::Malformed);
    };
    match spelled_in(alloc, &tree, line)? {
        Some(said) => Ok(judged(said)),
        None => Ok(unspelled(&tree)),
    }
}

/// Whether what was said breaks its rule.
fn judged(said: Said) -> Verdict
    ensures { result ≡ judged said }
{
    let Said {
        rule,
        place,
        facts,
        since,
        ..
    } = said;
    if breaks(rule, &place, &facts) {
        Verdict::Confirmed(Finding::new(rule, place, facts), since)
    } else {
        Verdict::Denied
    }
}

/// The verdict on a line with this tree that spells no finding.
fn unspelled(tree: &Value) -> Verdict
    ensures { result ≡ unspelled (view tree.now) }
{
    if is_other(tree) {
        Verdict::Other
    } else {
        Verdict::Malformed
    }
}

/// Whether a tree is an object whose `line` is another one of a report.
fn is_other(tree: &Value) -> bool
    ensures { result ≡ is_other (view tree.now) }
{
    match text_at(tree, "line") {
        Some(name) => is_among(
            name,
            &[
                "accepted",
                "refused",
                "closed",
                "trial",
                "timetable",
                "refused_timetable",
            ],
        ),
        None => false,
    }
}

/// Whether a name is one of these.
fn is_among(name: &str, names: &[&str]) -> bool
    ensures { result ≡ list_any (λ other. bytes_eq name.now other.now) names.now }
{
    names.iter().any(|other| name == *other)
}

//! What a tree says of a finding.
ghost use Rattle.std.specs.Prelude.{◌≡◌, IfOk};
ghost use Rattle.serde_json.specs.View.{view};
ghost use Rattle.report_verify.specs.Said.{kind_at, rule_at, said_of};

use crate::fact::facts_at;
use crate::members::{count_at, text_at};
use crate::place::place_of;
use feed_values::Items;
use finding_names::rule_named;
use rt_report::LineKind;
use rule_table::{Fact, Place, RuleId};
use serde_json::Value;
use std::alloc::{AllocError, Global};

/// A rule, a place and facts, which needn't break the rule there, and since when.
#[derive(Drop)]
pub struct Said {
    pub kind: LineKind,
    pub rule: RuleId,
    pub place: Place,
    pub facts: Items<Fact>,
    pub since: u64,
}

fn kind_at(finding: &Value) -> Option<LineKind>
    ensures { result ≡ kind_at (view finding.now) }
{
    let line = text_at(finding, "line")?;
    if line == "finding" {
        Some(LineKind::Finding)
    } else if line == "opened" {
        Some(LineKind::Opened)
    } else {
        None
    }
}

fn rule_at(finding: &Value) -> Option<RuleId>
    ensures { result ≡ rule_at (view finding.now) }
{
    rule_named(text_at(finding, "rule")?)
}

/// What a tree says of a finding. The level isn't asked: it follows from the rule.
pub fn said_of(alloc: Global, finding: &Value) -> Result<Option<Said>, AllocError>
    ensures { IfOk result (λ said. said ≡ said_of (view finding.now)) }
{
    let Some(kind) = kind_at(finding) else {
        return Ok(None);
    };
    let Some(rule) = rule_at(finding) else {
        return Ok(None);
    };
    let Some(since) = count_at(finding, "since") else {
        return Ok(None);
    };
    let Some(place) = place_of(alloc, finding)? else {
        return Ok(None);
    };
    let Some(facts) = facts_at(alloc, finding)? else {
        return Ok(None);
    };
    Ok(Some(Said {
        kind,
        rule,
        place,
        facts,
        since,
    }))
}

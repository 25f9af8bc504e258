//! Asks of facts and of findings.

use crate::claims::{Claim, claim_of};
use cases::{number, say, say_whether, word};
use feed_values::Items;
use rt_report::{LineKind, finding_line};
use rule_table::{Fact, Finding, Place};
use std::alloc::{AllocError, Global};

// The facts one by one.
fn copied_facts(alloc: Global, facts: &[Fact]) -> Result<Items<Fact>, AllocError> {
    let mut copies = Vec::new(alloc);
    for fact in facts {
        copies.push(fact.clone(alloc)?)?;
    }
    Ok(Items::from_vec(copies))
}

// The copies of a finding's place and of its facts.
fn copied_parts(alloc: Global, finding: &Finding) -> Result<Claim, AllocError> {
    Ok(Claim {
        rule: finding.rule(),
        place: finding.place().clone()?,
        facts: copied_facts(alloc, finding.facts().as_slice())?,
    })
}

fn is_key_copied(place: &Place) -> Result<bool, AllocError> {
    match place {
        Place::Entity(key, _) => Ok(key.clone()? == *key),
        Place::Head(_, _) => Ok(false),
    }
}

/// The line of a finding.
pub fn say_finding(
    alloc: Global,
    kind: LineKind,
    finding: &Finding,
    since: u64,
    out: &mut Vec<u8>,
) -> Result<(), AllocError> {
    let line = finding_line(alloc, kind, finding, since)?;
    out.extend_from_slice(&line)
}

fn say_parts(
    alloc: Global,
    finding: &Finding,
    since: u64,
    out: &mut Vec<u8>,
) -> Result<(), AllocError> {
    match copied_parts(alloc, finding)?.finding() {
        Some(copy) => say_finding(alloc, LineKind::Finding, &copy, since, out),
        None => say(out, "no finding"),
    }
}

fn say_of(
    alloc: Global,
    words: &[String],
    finding: &Finding,
    out: &mut Vec<u8>,
) -> Result<(), AllocError> {
    let since = number(words, 6);
    match word(words, 0) {
        "copy" => say_finding(alloc, LineKind::Finding, &finding.clone(alloc)?, since, out),
        "copy-parts" => say_parts(alloc, finding, since, out),
        "copy-key" => say_whether(out, is_key_copied(finding.place())?),
        "opened" => say_finding(alloc, LineKind::Opened, finding, since, out),
        _ => say_finding(alloc, LineKind::Finding, finding, since, out),
    }
}

/// The finding of an ask, where its facts break its rule.
pub fn finding_of(
    alloc: Global,
    words: &[String],
    given: &[u8],
) -> Result<Option<Finding>, AllocError> {
    match claim_of(alloc, words, given)? {
        Some(claim) => Ok(claim.finding()),
        None => Ok(None),
    }
}

fn say_made(
    alloc: Global,
    words: &[String],
    given: &[u8],
    out: &mut Vec<u8>,
) -> Result<(), AllocError> {
    match finding_of(alloc, words, given)? {
        Some(finding) => say_of(alloc, words, &finding, out),
        None => say(out, "no finding"),
    }
}

fn say_breaks(
    alloc: Global,
    words: &[String],
    given: &[u8],
    out: &mut Vec<u8>,
) -> Result<(), AllocError> {
    match claim_of(alloc, words, given)? {
        Some(claim) => say_whether(out, claim.breaks()),
        None => say(out, "no such rule, path or fact"),
    }
}

/// Answers `breaks RULE at entity|header PATH`, and `finding`, `opened`, `copy`, `copy-parts` and `copy-key` with the same words and
/// `since SNAPSHOT`. The facts stand below.
pub fn answer(
    alloc: Global,
    words: &[String],
    given: &[u8],
    out: &mut Vec<u8>,
) -> Result<bool, AllocError> {
    match word(words, 0) {
        "breaks" => say_breaks(alloc, words, given, out)?,
        "finding" | "opened" | "copy" | "copy-parts" | "copy-key" => {
            say_made(alloc, words, given, out)?
        }
        _ => return Ok(false),
    }
    Ok(true)
}

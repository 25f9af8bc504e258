//! Lists of findings in order, compared by one walk over both.
ghost use Rattle.std.specs.Prelude.{◌≡◌, ◌≤◌, ◌++◌, drop, length, option_copied, option_map, IfOk, OnOk};
ghost use Rattle.rule_history.specs.Standing.{opened, closed};
ghost use Rattle.engine_laws.specs.Order.{found_cmp, Rises};
ghost use Rattle.engine_laws.specs.Standings.{findings_of, renewed};
ghost use Rattle.standing_walks.specs.Changes.{all_opened, all_closed};
ghost use Rattle.standing_walks.specs.Walked.{IsInOrder, met, after, was_same};

use crate::changes::{Closed, Opened};
use crate::order::compare_findings;
use crate::standing::Standing;
use feed_values::Items;
use rule_table::{Finding, are_same_facts};
use std::alloc::{AllocError, Global};
use std::cmp::Ordering;

/// The standing of a finding's rule and place, where a list has one, and the place of the first that comes after it.
#[derive(Clone, Copy)]
struct Met<'a> {
    standing: Option<&'a Standing>,
    next: usize,
}

/// Goes on in a list, from a place, to what doesn't come before a finding.
fn meet<'a>(list: &'a [Standing], from: usize, finding: &Finding) -> Met<'a>
    requires { from ≤ length list.now }
    ensures met { option_copied result.standing ≡ met finding.now (drop from list.now) }
    ensures after { drop result.next list.now ≡ after finding.now (drop from list.now) }
    ensures within { result.next ≤ length list.now }
{
    for i in from..list.len() {
        match compare_findings(list[i].finding(), finding) {
            Ordering::Less => {}
            Ordering::Equal => {
                return Met {
                    standing: Some(&list[i]),
                    next: i + 1,
                };
            }
            Ordering::Greater => {
                return Met {
                    standing: None,
                    next: i,
                };
            }
        }
    }
    Met {
        standing: None,
        next: list.len(),
    }
}

fn since_of(met: Met<'_>) -> Option<u64>
    ensures { result ≡ option_map (λ x. x.since) (option_copied met.entry.standing) }
{
    match met.standing {
        None => None,
        Some(standing) => Some(standing.since()),
    }
}

/// Whether the finding that was met has the same facts.
fn is_same(met: Met<'_>, finding: &Finding) -> bool
    ensures { result ≡ was_same finding.now (option_copied met.entry.standing) }
{
    match met.standing {
        None => false,
        Some(standing) => are_same_facts(
            finding.facts().as_slice(),
            standing.finding().facts().as_slice(),
        ),
    }
}

/// Findings, each with the number that its rule has at its place in an old list, whatever its facts were; where it has none there, with
/// `applied`.
///
/// It goes once along both lists. The one error is want of memory.
pub fn renew(
    alloc: Global,
    old: &[Standing],
    found: Items<Finding>,
    applied: u64,
) -> Result<Items<Standing>, AllocError>
    requires old { IsInOrder old.now }
    requires found { Rises found_cmp found }
    ensures list { IfOk result (λ list. list ≡ renewed old.now applied found) }
    ensures ordered { IfOk result IsInOrder }
{
    let mut list = Vec::new(alloc);
    let mut at = 0;
    for finding in found.into_vec() {
        let met = meet(old, at, &finding);
        let since = since_of(met).unwrap_or(applied);
        at = met.next;
        list.push(Standing::new(alloc, finding, since)?)?;
    }
    Ok(Items::from_vec(list))
}

/// Appends the findings of now that weren't among those before with the same facts, in their order.
///
/// It goes once along both lists. The one error is want of memory; `out` is of no further use then.
pub fn put_opened(
    before: &[Standing],
    now: &[Standing],
    out: &mut Items<Opened>,
) -> Result<(), AllocError>
    requires before { IsInOrder before.now }
    requires now { IsInOrder now.now }
    ensures { OnOk result (all_opened out.new ≡ all_opened out.old ++ opened (findings_of before.now) now.now) }
{
    let mut at = 0;
    for standing in now {
        let met = meet(before, at, standing.finding());
        at = met.next;
        if !is_same(met, standing.finding()) {
            out.push(standing.to_opened()?)?;
        }
    }
    Ok(())
}

/// Appends the rules at places that stood before and don't now, in their order.
///
/// It goes once along both lists. The one error is want of memory; `out` is of no further use then.
pub fn put_closed(
    before: &[Standing],
    now: &[Standing],
    out: &mut Items<Closed>,
) -> Result<(), AllocError>
    requires before { IsInOrder before.now }
    requires now { IsInOrder now.now }
    ensures { OnOk result (all_closed out.new ≡ all_closed out.old ++ closed (findings_of before.now) (findings_of now.now)) }
{
    let mut at = 0;
    for standing in before {
        let met = meet(now, at, standing.finding());
        at = met.next;
        if met.standing.is_none() {
            out.push(standing.to_closed()?)?;
        }
    }
    Ok(())
}

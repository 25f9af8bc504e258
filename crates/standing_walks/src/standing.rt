//! Findings since a snapshot.
ghost use Rattle.std.specs.Prelude.{◌≡◌, IfOk};
ghost use Rattle.standing_walks.specs.Changes.{opened_value, closed_value, spot_of};

use crate::changes::{Closed, Opened};
use crate::shared::SharedFinding;
use rule_table::Finding;
use std::alloc::{AllocError, Global};
use std::marker::Model;

/// A finding, and the number of the snapshot since which its rule stands at its place, whatever the facts were meanwhile. Snapshots count
/// from 0.
#[derive(Drop)]
pub struct Standing {
    finding: SharedFinding,
    since: u64,
}

impl Model for Standing {
    ghost use Rattle.rule_history.specs.Standing as standing;

    ghost Value = { standing.Standing };

    ghost view = { λ s. record { finding = s.finding; since = s.since } };
}

impl Standing {
    pub fn new(alloc: Global, finding: Finding, since: u64) -> Result<Standing, AllocError>
        ensures { IfOk result (λ standing. standing ≡ record { finding = finding; since = since }) }
    {
        Ok(Standing {
            finding: SharedFinding::new(alloc, finding)?,
            since,
        })
    }

    pub fn finding(&self) -> &Finding
        ensures { result.now ≡ self.now.finding }
    {
        &self.finding
    }

    pub fn since(&self) -> u64
        ensures { result ≡ self.now.since }
    {
        self.since
    }

    /// It once more, as one that opened. It shares the finding.
    pub fn to_opened(&self) -> Result<Opened, AllocError>
        ensures { IfOk result (λ opened. opened_value opened ≡ self.now) }
    {
        Ok(Opened {
            finding: self.finding.clone()?,
            since: self.since,
        })
    }

    /// Its rule and place, as those of one that closed.
    pub fn to_closed(&self) -> Result<Closed, AllocError>
        ensures { IfOk result (λ closed. closed_value closed ≡ spot_of self.now.finding) }
    {
        Ok(Closed {
            rule: self.finding.rule(),
            place: self.finding.place().clone()?,
        })
    }
}

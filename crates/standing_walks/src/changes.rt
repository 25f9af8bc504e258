//! What opens and what closes.

use crate::shared::SharedFinding;
use rule_table::{Place, RuleId};

/// A finding that opened, and the number of the snapshot since which its rule stands at its place, whatever the facts were.
#[derive(Drop)]
pub struct Opened {
    pub finding: SharedFinding,
    pub since: u64,
}

/// A rule that stands no more at a place.
#[derive(Drop)]
pub struct Closed {
    pub rule: RuleId,
    pub place: Place,
}

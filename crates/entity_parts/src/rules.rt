//! The groups of rules that are judged at entities.

use history_rules::{BoundGroup, PeakGroup};
use judging::{MessageGroup, ScheduleGroup};
use pairing_rules::PairGroup;
use rule_table::Both;

/// The groups of rules with places at entities.
#[derive(Drop)]
pub struct PartRules {
    pub(crate) local: Both<MessageGroup, ScheduleGroup>,
    pub(crate) paired: PairGroup,
    pub(crate) bounded: BoundGroup,
    pub(crate) peaked: PeakGroup,
}

impl PartRules {
    pub fn new() -> PartRules {
        PartRules {
            local: Both::new(MessageGroup::new(), ScheduleGroup::new()),
            paired: PairGroup::new(),
            bounded: BoundGroup::new(),
            peaked: PeakGroup::new(),
        }
    }
}

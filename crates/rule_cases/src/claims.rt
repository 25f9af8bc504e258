//! A rule, a place and facts.

use crate::facts::facts_of;
use crate::paths::path_of;
use crate::rules::rule_of;
use cases::word;
use evidence::breaks;
use feed_values::{Items, Path};
use rule_table::{EntityId, EntityKey, Fact, Finding, Place, RuleId};
use std::alloc::{AllocError, Global};

/// Facts of which a rule at a place is asked.
#[derive(Drop)]
pub struct Claim {
    pub rule: RuleId,
    pub place: Place,
    pub facts: Items<Fact>,
}

// The place of `header PATH` is on the header of feed 3, and that of `entity PATH` at entity `q` of feed 3, which is the third of
// that id.
fn place_of(alloc: Global, holder: &str, path: Path) -> Result<Place, AllocError> {
    if holder == "header" {
        return Ok(Place::Head(3, path.slot));
    }
    let key = EntityKey {
        feed: 3,
        id: EntityId::of(alloc, "q")?,
        occurrence: 2,
    };
    Ok(Place::Entity(key, path))
}

/// The claim of `ASK RULE at entity|header PATH` and the lines below it, where there is such a rule, such a path and such facts.
pub fn claim_of(
    alloc: Global,
    words: &[String],
    given: &[u8],
) -> Result<Option<Claim>, AllocError> {
    let Some(rule) = rule_of(word(words, 1)) else {
        return Ok(None);
    };
    let Some(path) = path_of(alloc, word(words, 4))? else {
        return Ok(None);
    };
    let Some(facts) = facts_of(alloc, given)? else {
        return Ok(None);
    };
    let place = place_of(alloc, word(words, 3), path)?;
    Ok(Some(Claim { rule, place, facts }))
}

impl Claim {
    pub fn breaks(&self) -> bool {
        breaks(self.rule, &self.place, &self.facts)
    }

    /// The finding, where the facts break the rule.
    pub fn finding(self) -> Option<Finding> {
        let Claim { rule, place, facts } = self;
        if breaks(rule, &place, &facts) {
            Some(Finding::new(rule, place, facts))
        } else {
            None
        }
    }
}

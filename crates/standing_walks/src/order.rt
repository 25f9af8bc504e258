//! The order of findings.
ghost use Rattle.std.specs.Prelude.{◌≡◌};
ghost use Rattle.engine_laws.specs.Order.{holder_cmp, found_cmp};

use rule_table::{Finding, Place, feed_of, slot_number};
use std::cmp::Ordering;

/// Within a feed its header comes before its entities, and these go by id and then by occurrence.
fn compare_holders(a: &Place, b: &Place) -> Ordering
    ensures { result ≡ holder_cmp a.now b.now }
{
    match a {
        Place::Head(_, _) => match b {
            Place::Head(_, _) => Ordering::Equal,
            Place::Entity(_, _) => Ordering::Less,
        },
        Place::Entity(key, _) => match b {
            Place::Head(_, _) => Ordering::Greater,
            Place::Entity(other, _) => {
                let occurrences = key.occurrence.cmp(&other.occurrence);
                key.id.cmp(&other.id).then(occurrences)
            }
        },
    }
}

/// The order of findings: by feed, then its header before its entities and these by id and occurrence, then by the rule's text, by slot
/// and by index. It doesn't look at facts.
pub fn compare_findings(a: &Finding, b: &Finding) -> Ordering
    ensures { result ≡ found_cmp a.now b.now }
{
    let place = a.place();
    let other = b.place();
    let path = place.borrowed();
    let other_path = other.borrowed();
    let indexes = path.index().cmp(&other_path.index());
    let slots = slot_number(path.slot())
        .cmp(&slot_number(other_path.slot()))
        .then(indexes);
    let rules = a.rule().number().cmp(&b.rule().number()).then(slots);
    let holders = compare_holders(place, other).then(rules);
    feed_of(place).cmp(&feed_of(other)).then(holders)
}

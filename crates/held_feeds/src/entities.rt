//! Entities handed out in order.
ghost use Rattle.std.specs.Prelude.{◌≡◌};
ghost use Rattle.std.specs.Iterator.{YieldsFirstBy, item_count};
ghost use Rattle.cached_laws.specs.State.{feed_of};
ghost use Rattle.cached_laws.specs.entity_index.Handed.{keyed_value, listed};
ghost use Rattle.held_feeds.specs.Entities.{entities_held, entities_said};
ghost use Rattle.held_feeds.specs.States.{state_of};

use crate::feeds::{Feeds, FeedsIter, HeldFeeds};
use feed_values::Entity;
use rule_table::EntityKey;
use std::marker::Model;
use touched_entities::EntitiesIter as HeldEntities;

/// The entities that are left to hand out, each under its key, in the order of their keys. Contracts see it as the list of them.
/// It takes no memory.
#[derive(Drop)]
pub struct EntitiesIter<'a> {
    /// Those of the feed at hand.
    at_hand: Option<HeldEntities<'a>>,
    /// The feeds after it.
    feeds: FeedsIter<'a>,
}

impl<'a> Model for EntitiesIter<'a> {
    ghost use Rattle.std.specs.Prelude.{◌++◌};
    ghost use Rattle.std.specs.List.{flat_map};
    ghost use Rattle.cached_laws.specs.entity_index.Held.{KeyedValues};
    ghost use Rattle.cached_laws.specs.entity_index.Handed.{listed};
    ghost use Rattle.held_feeds.specs.Entities.{entities_said};

    ghost Value = { KeyedValues };

    ghost view = { λ s. listed s.at_hand ++ flat_map (λ feed. entities_said feed.last) s.feeds };
}

impl<'a> EntitiesIter<'a> {
    pub fn new(feeds: &'a Feeds) -> EntitiesIter<'a>
        ensures { result ≡ entities_held feeds.now }
    {
        EntitiesIter {
            at_hand: None,
            feeds: FeedsIter::new(feeds),
        }
    }
}

// The entities of a feed.
fn entities_of(held: &HeldFeeds, feed: u8) -> HeldEntities<'_>
    ensures { result ≡ entities_said (feed_of (state_of held.now) feed).last }
{
    held.index.entities(feed)
}

// The next entity of the feed at hand, if there is one.
fn next_at_hand<'a>(at_hand: &mut Option<HeldEntities<'a>>) -> Option<(&'a EntityKey, &'a Entity)>
    ensures { YieldsFirstBy keyed_value listed at_hand.old result at_hand.new }
{
    match at_hand {
        None => None,
        Some(entities) => entities.next(),
    }
}

impl<'a> Iterator for EntitiesIter<'a> {
    type Item = (&'a EntityKey, &'a Entity);

    ghost next_gives = { YieldsFirstBy keyed_value (λ left. left) };

    ghost remaining = { item_count (λ left. left) };

    fn next(&mut self) -> Option<(&'a EntityKey, &'a Entity)> {
        let mut next = next_at_hand(&mut self.at_hand);
        while next.is_none() {
            let (held, feed) = self.feeds.next()?;
            self.at_hand = Some(entities_of(held, feed));
            next = next_at_hand(&mut self.at_hand);
        }
        next
    }
}

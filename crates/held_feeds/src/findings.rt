//! Findings handed out in order.
ghost use Rattle.std.specs.Prelude.{◌≡◌};
ghost use Rattle.std.specs.Iterator.{YieldsFirstBy, item_count};
ghost use Rattle.engine_laws.specs.HeldFeeds.{joined};
ghost use Rattle.cached_laws.specs.State.{feed_of, whole_of};
ghost use Rattle.held_feeds.specs.Left.{at_hand, standing_of};

use crate::feeds::{Feeds, FeedsIter};
use rule_table::Finding;
use std::marker::Model;
use touched_entities::{FourLists, Parts, PartsIter, Standing};

/// What stands at an entity.
fn whole(parts: &Parts) -> FourLists<'_>
    ensures { result ≡ whole_of parts.now }
{
    FourLists::new(
        parts.get(0).as_slice(),
        parts.get(1).as_slice(),
        parts.get(2).as_slice(),
        parts.get(3).as_slice(),
    )
}

/// What stands on a header.
fn alone(list: &[Standing]) -> FourLists<'_>
    ensures { result ≡ list.now }
{
    FourLists::new(list, &[], &[], &[])
}

/// The lists that are left to hand out: of each feed that on its header, then those at its entities. Contracts see it as the list of them.
#[derive(Drop)]
struct Lists<'a> {
    /// Those at entities of the feed at hand.
    entities: Option<PartsIter<'a>>,
    /// The feeds after it.
    feeds: FeedsIter<'a>,
}

impl<'a> Model for Lists<'a> {
    ghost use Rattle.std.specs.Prelude.{List, ◌++◌};
    ghost use Rattle.std.specs.List.{flat_map};
    ghost use Rattle.rule_history.specs.Standing as standing;
    ghost use Rattle.held_feeds.specs.Left.{at_hand, feed_lists};

    ghost Value = { List (List standing.Standing) };

    ghost view = { λ s. at_hand s.entities ++ flat_map feed_lists s.feeds };
}

// What stands at the next entity of the feed at hand, if one is left.
fn next_at_hand<'a>(entities: &mut Option<PartsIter<'a>>) -> Option<FourLists<'a>>
    ensures { YieldsFirstBy (λ list. list) at_hand entities.old result entities.new }
{
    match entities {
        None => None,
        Some(entities) => {
            let (_, parts) = entities.next()?;
            Some(whole(parts))
        }
    }
}

impl<'a> Iterator for Lists<'a> {
    type Item = FourLists<'a>;

    ghost next_gives = { YieldsFirstBy (λ list. list) (λ left. left) };

    ghost remaining = { item_count (λ left. left) };

    fn next(&mut self) -> Option<FourLists<'a>> {
        if let Some(list) = next_at_hand(&mut self.entities) {
            return Some(list);
        }
        let (held, feed) = self.feeds.next()?;
        self.entities = Some(held.index.parts(feed));
        Some(alone(held.list_on(feed)))
    }
}

/// The findings that are left to hand out, in their order, each with the number of the snapshot since which its rule stands at
/// its place. Contracts see it as the list of them. It takes no memory.
#[derive(Drop)]
pub struct FindingsIter<'a> {
    list: FourLists<'a>,
    lists: Lists<'a>,
}

impl<'a> Model for FindingsIter<'a> {
    ghost use Rattle.std.specs.Prelude.{List, ◌++◌};
    ghost use Rattle.rule_history.specs.Standing as standing;
    ghost use Rattle.held_feeds.specs.Left.{flat};

    ghost Value = { List standing.Standing };

    ghost view = { λ s. s.list ++ flat s.lists };
}

impl<'a> FindingsIter<'a> {
    pub fn new(feeds: &'a Feeds) -> FindingsIter<'a>
        ensures { result ≡ joined (feed_of feeds.now) }
    {
        FindingsIter {
            list: FourLists::new(&[], &[], &[], &[]),
            lists: Lists {
                entities: None,
                feeds: FeedsIter::new(feeds),
            },
        }
    }
}

impl<'a> Iterator for FindingsIter<'a> {
    type Item = (&'a Finding, u64);

    ghost next_gives = { YieldsFirstBy standing_of (λ left. left) };

    ghost remaining = { item_count (λ left. left) };

    fn next(&mut self) -> Option<(&'a Finding, u64)> {
        loop {
            if let Some(standing) = self.list.next() {
                return Some((standing.finding(), standing.since()));
            }
            self.list = self.lists.next()?;
        }
    }
}

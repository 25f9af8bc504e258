//! What is held of all feeds.
ghost use Rattle.std.specs.Prelude.{◌≡◌, ◌<◌, ◌==◌, ℕ, false, length, OnOk};
ghost use Rattle.std.specs.Iterator.{YieldsFirstBy, item_count};
ghost use Rattle.cached_laws.specs.State.{IsState, header_at};
ghost use Rattle.held_feeds.specs.Left.{last_feeds};
ghost use Rattle.held_feeds.specs.States.{feed_at_hand};

use feed_values::Items;
use history_rules::Peaks;
use row_changes::HeldRows;
use std::alloc::{AllocError, Global};
use std::marker::Model;
use touched_entities::{EntityIndex, Standing};

/// What is held of a feed beside its entities: the moment of its last snapshot, in seconds from 1970, and what stands on its header.
#[derive(Drop)]
pub struct Header {
    pub moment: u64,
    pub list: Items<Standing>,
}

impl Model for Header {
    ghost use Rattle.cached_laws.specs.State.{HeldHeader};

    ghost Value = { HeldHeader };

    ghost view = { λ h. record { moment = h.moment; list = h.list } };
}

/// The entities of all feeds with what stands at them, the headers, each at the place of its feed's number, and the peaks of vehicles.
#[derive(Drop)]
pub struct HeldFeeds {
    pub index: EntityIndex,
    pub headers: Vec<Header>,
    pub peaks: Peaks,
}

impl HeldFeeds {
    /// What stands on the header of a feed.
    pub fn list_on(&self, feed: u8) -> &[Standing]
        ensures { result.now ≡ (header_at self.now.headers.items feed).list }
    {
        match self.headers.get(feed as usize) {
            None => &[],
            Some(header) => header.list.as_slice(),
        }
    }

    /// The moment of its last snapshot; 0 where it has none.
    pub fn moment_of(&self, feed: u8) -> u64
        ensures { result ≡ (header_at self.now.headers.items feed).moment }
    {
        match self.headers.get(feed as usize) {
            None => 0,
            Some(header) => header.moment,
        }
    }
}

/// Makes a place for a feed.
fn make_place(alloc: Global, headers: &mut Vec<Header>, feed: u8) -> Result<(), AllocError>
    ensures same { OnOk result ((g : ℕ) → header_at headers.new.items g ≡ header_at headers.old.items g) }
    ensures within { OnOk result (feed < length headers.new.items) }
{
    while headers.len() <= feed as usize {
        headers.push(Header {
            moment: 0,
            list: Items::new(alloc),
        })?;
    }
    Ok(())
}

/// Puts the header of a feed in the place of the one that it had.
pub fn put_header(
    alloc: Global,
    headers: &mut Vec<Header>,
    feed: u8,
    header: Header,
) -> Result<(), AllocError>
    ensures here { OnOk result (header_at headers.new.items feed ≡ header) }
    ensures others { OnOk result ((g : ℕ) → (feed == g) ≡ false → header_at headers.new.items g ≡ header_at headers.old.items g) }
{
    make_place(alloc, headers, feed)?;
    headers[feed as usize] = header;
    Ok(())
}

/// All that an engine holds of its feeds: the entities and headers, and the pairing rows and timestamps of the entities. Contracts see it as the
/// entities' lists, the headers and the peaks.
#[derive(Drop)]
pub struct Feeds {
    pub held: HeldFeeds,
    pub rows: HeldRows,
}

impl Model for Feeds {
    ghost use Rattle.cached_laws.specs.State.{State};
    ghost use Rattle.held_feeds.specs.States.{AreFeeds, state_of};

    ghost Value = { State };

    ghost view = { λ s. state_of s.held };

    ghost invariant = { λ s. AreFeeds s.held s.rows };
}

impl Feeds {
    /// The lists are under the keys of the snapshots, which are such as are taken. It does nothing.
    pub fn stands(&self)
        ensures { IsState self.now }
    {
        let _ = &self.rows;
    }
}

/// The feeds that are left of 256, by number: what is held, and the number of the next. Contracts see it as the list of what is handed out of each.
#[derive(Drop)]
pub(crate) struct FeedsIter<'a> {
    feeds: &'a Feeds,
    left: u16,
}

impl<'a> Model for FeedsIter<'a> {
    ghost use Rattle.std.specs.Prelude.{List, ◌≤◌};
    ghost use Rattle.held_feeds.specs.States.{HandedFeed};
    ghost use Rattle.held_feeds.specs.Left.{last_feeds};

    ghost Value = { List HandedFeed };

    ghost view = { λ s. last_feeds s.feeds.now s.left };

    ghost invariant = { λ s. s.left ≤ 256 };
}

impl<'a> FeedsIter<'a> {
    /// All feeds.
    pub fn new(feeds: &'a Feeds) -> FeedsIter<'a>
        ensures { (n : ℕ) → n ≡ 256 → result ≡ last_feeds feeds.now n }
    {
        FeedsIter { feeds, left: 256 }
    }
}

impl<'a> Iterator for FeedsIter<'a> {
    type Item = (&'a HeldFeeds, u8);

    ghost next_gives = { YieldsFirstBy feed_at_hand (λ left. left) };

    ghost remaining = { item_count (λ left. left) };

    fn next(&mut self) -> Option<(&'a HeldFeeds, u8)> {
        if self.left == 0 {
            return None;
        }
        let feeds = self.feeds;
        let feed = (256 - self.left) as u8;
        self.left -= 1;
        Some((&feeds.held, feed))
    }
}

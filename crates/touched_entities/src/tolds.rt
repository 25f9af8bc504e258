//! What opened and closed at all places.
ghost use Rattle.std.specs.Prelude.{◌≡◌, ◌<◌, ◌≤◌, ◌==◌, ℕ, Some, OnOk, length, unwrap_or, if◌then◌else◌};
ghost use Rattle.rule_table.specs.declared.key.EntityKey.{EntityKey as Key};
ghost use Rattle.rule_table.specs.Groups.{Each};
ghost use Rattle.rule_table.specs.Order.{same_key};
ghost use Rattle.entity_parts.specs.standing_walks.Walked.{IsInOrder};
ghost use Rattle.entity_index.specs.Held.{at_key};
ghost use Rattle.touched_entities.specs.Told.{AreTolds, feed_told, header_told, no_told, nothing_told, plus, told_at, told_between};

use crate::told::Told;
use entity_parts::Standing;
use feed_values::Items;
use rule_table::EntityKey;
use std::alloc::{AllocError, Global};
use std::collections::BTreeMap;
use std::marker::Model;

/// What opened and closed at the places of a feed.
#[derive(Drop)]
pub(crate) struct FeedTold {
    pub header: Told,
    pub entities: BTreeMap<EntityKey, Told>,
}

impl Model for FeedTold {
    ghost use Rattle.touched_entities.specs.Told as told;

    ghost Value = { told.FeedTold };

    ghost view = { λ s. record { header = s.header; entities = s.entities.entries } };
}

/// What opened and closed at the places of all feeds, each feed at the place of its number. Contracts see it as the list of these.
#[derive(Drop)]
pub struct Tolds {
    pub(crate) feeds: Vec<FeedTold>,
}

impl Model for Tolds {
    ghost use Rattle.std.specs.Prelude.{List};
    ghost use Rattle.touched_entities.specs.Told as told;

    ghost Value = { List told.FeedTold };

    ghost view = { λ s. s.feeds.items };
}

/// Makes a place for a feed.
fn make_place(alloc: Global, feeds: &mut Vec<FeedTold>, feed: u8) -> Result<(), AllocError>
    ensures same { OnOk result ((g : ℕ) → feed_told feeds.new.items g ≡ feed_told feeds.old.items g) }
    ensures within { OnOk result (feed < length feeds.new.items) }
    ensures few { OnOk result (length feeds.old.items ≤ 256 → length feeds.new.items ≤ 256) }
{
    while feeds.len() <= feed as usize {
        feeds.push(FeedTold {
            header: Told::new(alloc),
            entities: BTreeMap::new(alloc),
        })?;
    }
    Ok(())
}

/// Puts in what opened and closed under a key at which nothing was told.
fn put_first(
    alloc: Global,
    entities: &mut BTreeMap<EntityKey, Told>,
    key: &EntityKey,
    old: &[Standing],
    new: &[Standing],
) -> Result<(), AllocError>
    requires old { IsInOrder old.now }
    requires new { IsInOrder new.now }
    ensures told { OnOk result ((k : Key) → at_key k entities.new.entries ≡ (if same_key key.now k then Some (plus no_told (told_between old.now new.now)) else at_key k entities.old.entries)) }
    ensures own { OnOk result (Each (λ e. e.0.feed ≡ key.now.feed) entities.old.entries → Each (λ e. e.0.feed ≡ key.now.feed) entities.new.entries) }
{
    let mut told = Told::new(alloc);
    told.put(old, new)?;
    entities.insert(key.clone()?, told)?;
    Ok(())
}

/// Puts in what opened and closed under a key.
fn put_under(
    alloc: Global,
    entities: &mut BTreeMap<EntityKey, Told>,
    key: &EntityKey,
    old: &[Standing],
    new: &[Standing],
) -> Result<(), AllocError>
    requires old { IsInOrder old.now }
    requires new { IsInOrder new.now }
    ensures own { OnOk result (Each (λ e. e.0.feed ≡ key.now.feed) entities.old.entries → Each (λ e. e.0.feed ≡ key.now.feed) entities.new.entries) }
    ensures told { OnOk result ((k : Key) → at_key k entities.new.entries
        ≡ (if same_key key.now k then Some (plus (unwrap_or (at_key k entities.old.entries) no_told) (told_between old.now new.now)) else at_key k entities.old.entries)) }
{
    match entities.get_mut(key) {
        Some(told) => {
            told.put(old, new)?;
            Ok(())
        }
        None => {
            put_first(alloc, entities, key, old, new)?;
            Ok(())
        }
    }
}

impl Tolds {
    /// Nothing. It takes no memory.
    pub fn new(alloc: Global) -> Tolds
        ensures told { (f : ℕ) → feed_told result f ≡ nothing_told }
        ensures own { AreTolds result }
    {
        Tolds {
            feeds: Vec::new(alloc),
        }
    }

    /// Puts in what opened and closed at an entity, between a list and the one in its place.
    ///
    /// The one error is want of memory; what was put in is of no further use then.
    pub fn put(
        &mut self,
        alloc: Global,
        key: &EntityKey,
        old: &[Standing],
        new: &[Standing],
    ) -> Result<(), AllocError>
        requires old { IsInOrder old.now }
        requires new { IsInOrder new.now }
        ensures own { OnOk result (AreTolds self.old → AreTolds self.new) }
        ensures told { OnOk result ((k : Key) → told_at self.new k ≡ (if same_key key.now k then plus (told_at self.old k) (told_between old.now new.now) else told_at self.old k)) }
        ensures headers { OnOk result ((f : ℕ) → header_told self.new f ≡ header_told self.old f) }
    {
        // Most lists are empty before and after: their keys take no place.
        if old.is_empty() && new.is_empty() {
            return Ok(());
        }
        make_place(alloc, &mut self.feeds, key.feed)?;
        put_under(
            alloc,
            &mut self.feeds[key.feed as usize].entities,
            key,
            old,
            new,
        )?;
        Ok(())
    }

    /// The same on the header of a feed.
    pub fn put_header(
        &mut self,
        alloc: Global,
        feed: u8,
        old: &[Standing],
        new: &[Standing],
    ) -> Result<(), AllocError>
        requires old { IsInOrder old.now }
        requires new { IsInOrder new.now }
        ensures own { OnOk result (AreTolds self.old → AreTolds self.new) }
        ensures told { OnOk result ((k : Key) → told_at self.new k ≡ told_at self.old k) }
        ensures headers { OnOk result ((f : ℕ) → header_told self.new f ≡ (if feed == f then plus (header_told self.old f) (told_between old.now new.now) else header_told self.old f)) }
    {
        make_place(alloc, &mut self.feeds, feed)?;
        self.feeds[feed as usize].header.put(old, new)?;
        Ok(())
    }
}

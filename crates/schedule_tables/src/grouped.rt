//! Maps from ids to what stands under them.

ghost use Rattle.std.specs.Prelude.{◌≢◌, ◌≡◌, false, true, IfOk, Some, None, if◌then◌else◌, is_some, option_copied};
ghost use Rattle.std.specs.FinMap as map;
ghost use Rattle.schedule_tables.specs.Maps.{put_under, table_of};
ghost use Rattle.schedule_tables.specs.Numbers.{map_of};

use crate::numbered::Numbered;
use indexmap::IndexMap;
use schedule_rows::Id;
use std::alloc::{AllocError, Global};
use std::marker::Model;

/// What stands under one id: the items of its rows.
pub trait Group: Sized {
    ghost use Rattle.std.specs.Prelude.{◌≡◌, IfOk, Some, None, if◌then◌else◌};
    ghost use Rattle.schedule_tables.specs.Maps.{Grouping};

    type Item;

    ghost grouping: { Grouping Self.Item Self };

    /// The group of one item.
    fn first(alloc: Global, item: Self::Item) -> Result<Self, AllocError>
        ensures { IfOk result (λ group. group ≡ grouping.first item) };

    /// Adds an item, unless its key stood here before, and tells whether it was new.
    fn put(&mut self, item: Self::Item) -> Result<bool, AllocError>
        ensures { IfOk result (λ new. grouping.more self.old item ≡ (if new then Some self.new else None)) };
}

/// Groups by id. Contracts see a finite map from the ids' bytes.
///
/// Look-ups take no memory. Ids are hashed with a fixed seed.
#[derive(Drop)]
pub struct Grouped<G> {
    groups: IndexMap<String, G>,
}

impl<G> Model for Grouped<G> {
    ghost use Rattle.std.specs.FinMap.{code};
    ghost use Rattle.std.specs.Coded.{coded_list, coded_ℕ};
    ghost use Rattle.schedule_tables.specs.Maps.{ByText, table_of};

    ghost Value = { ByText G };

    ghost coded = { code (coded_list coded_ℕ) G.code };

    ghost view = { λ grouped. table_of grouped.groups.entries };
}

impl<G: Drop> Grouped<G> {
    pub fn new(alloc: Global) -> Grouped<G>
        ensures { result ≡ map.empty }
    {
        Grouped {
            groups: IndexMap::new(alloc),
        }
    }

    /// The map without groups, with room for those of so many ids.
    pub fn with_room(alloc: Global, ids: usize) -> Result<Grouped<G>, AllocError>
        ensures { IfOk result (λ groups. groups ≡ map.empty) }
    {
        let groups = IndexMap::with_capacity(alloc, ids)?;
        Ok(Grouped { groups })
    }

    /// How many ids there are.
    pub fn len(&self) -> usize {
        self.groups.len()
    }

    /// Whether there are none.
    pub fn is_empty(&self) -> bool
        ensures none { result ≡ true → self.now ≡ map.empty }
        ensures some { result ≡ false → self.now ≢ map.empty }
    {
        self.groups.is_empty()
    }

    /// What stands under an id.
    pub fn get(&self, id: &str) -> Option<&G>
        ensures { option_copied result ≡ map.get self.now id.now }
    {
        self.groups.get(id)
    }

    /// The groups of a map.
    pub fn of(groups: IndexMap<String, G>) -> Grouped<G>
        ensures { result ≡ table_of groups.entries }
    {
        Grouped { groups }
    }

    /// The map of the groups.
    pub fn into_groups(self) -> IndexMap<String, G>
        ensures { table_of result.entries ≡ self }
    {
        self.groups
    }

    /// The same groups by number.
    pub fn into_numbered(self) -> Numbered<G>
        ensures { map_of result ≡ self }
    {
        Numbered::new(self.groups)
    }
}

impl<G: Group + Drop> Grouped<G> {
    /// Adds an item under an id, unless its key stood there before, and tells whether it was new.
    pub fn put(&mut self, alloc: Global, id: Id, item: G::Item) -> Result<bool, AllocError>
        ensures { IfOk result (λ new. put_under G.grouping self.old id item ≡ (if new then Some self.new else None)) }
    {
        if self.groups.contains_key(id.as_str()) {
            self.put_more(id.as_str(), item)
        } else {
            self.put_first(alloc, id, item)
        }
    }

    fn put_more(&mut self, id: &str, item: G::Item) -> Result<bool, AllocError>
        requires { is_some (map.get self.old id.now) ≡ true }
        ensures { IfOk result (λ new. put_under G.grouping self.old id.now item ≡ (if new then Some self.new else None)) }
    {
        match self.groups.get_mut(id) {
            Some(group) => group.put(item),
            None => unreachable!(),
        }
    }

    fn put_first(&mut self, alloc: Global, id: Id, item: G::Item) -> Result<bool, AllocError>
        requires { is_some (map.get self.old id) ≡ false }
        ensures { IfOk result (λ new. put_under G.grouping self.old id item ≡ (if new then Some self.new else None)) }
    {
        let group = G::first(alloc, item)?;
        self.groups.insert(id.into_string(), group)?;
        Ok(true)
    }
}

/// The one row of an id, where the id is the key.
#[derive(Clone, Copy, Drop)]
pub struct Only<I> {
    pub item: I,
}

impl<I: Drop> Group for Only<I> {
    ghost use Rattle.std.specs.Prelude.{None};

    type Item = I;

    ghost grouping = { record { first = λ item. record { item = item }; more = λ _ _. None } };

    fn first(_alloc: Global, item: I) -> Result<Only<I>, AllocError> {
        Ok(Only { item })
    }

    fn put(&mut self, _item: I) -> Result<bool, AllocError> {
        Ok(false)
    }
}

//! Ids by number, with what stands under them.

ghost use Rattle.std.specs.Prelude.{◌≡◌, ◌<◌, None, Some, IfNone, IfSome, is_some, length, option_map, slice_get};
ghost use Rattle.std.specs.FinMap as map;
ghost use Rattle.schedule_tables.specs.Numbers.{HasNumber, map_of};
ghost use Rattle.schedule_tables.specs.Maps.{Text, by_text};

use indexmap::IndexMap;
use std::marker::Model;

/// Ids numbered from 0, each with one group. Contracts see the list of ids and groups.
#[derive(Drop)]
pub struct Numbered<G> {
    groups: IndexMap<String, G>,
}

impl<G> Model for Numbered<G> {
    ghost use Rattle.std.specs.Prelude.{List};
    ghost use Rattle.std.specs.Coded.{coded_list, coded_ℕ, coded×};
    ghost use Rattle.schedule_tables.specs.Maps.{Text, by_text};

    ghost Value = { List (Text × G) };

    ghost coded = { coded_list (coded× (coded_list coded_ℕ) G.code) };

    ghost view = { λ numbered. by_text numbered.groups.entries };
}

impl<G: Drop> Numbered<G> {
    /// The ids of a map, numbered in the order in which they came.
    pub fn new(groups: IndexMap<String, G>) -> Numbered<G>
        ensures { result ≡ by_text groups.entries }
    {
        Numbered { groups }
    }

    /// How many ids there are.
    pub fn len(&self) -> usize
        ensures { result ≡ length self.now }
    {
        self.groups.len()
    }

    /// The number of an id.
    pub fn number(&self, id: &str) -> Option<usize>
        ensures found { IfSome result (λ n. HasNumber self.now n id.now) }
        ensures within { IfSome result (λ n. n < length self.now) }
        ensures none { IfNone result (map.get (map_of self.now) id.now ≡ None) }
        ensures known { is_some result ≡ is_some (map.get (map_of self.now) id.now) }
    {
        match self.groups.get_index_of(id) {
            Some(number) => Some(number),
            None => None,
        }
    }

    /// The id of a number.
    pub fn id(&self, number: usize) -> &str
        requires { number < length self.now }
        ensures { HasNumber self.now number result.now }
    {
        let (id, _) = self.groups.get_index(number).unwrap();
        id.as_str()
    }

    /// What stands under the id of a number.
    pub fn get(&self, number: usize) -> &G
        requires { number < length self.now }
        ensures entry { option_map (λ entry. entry.1) (slice_get self.now number) ≡ Some result.now }
        ensures value { (id : Text) → HasNumber self.now number id → map.get (map_of self.now) id ≡ Some result.now }
    {
        let (_, group) = self.groups.get_index(number).unwrap();
        group
    }
}

//! Places of rows in an order by number.
ghost use Rattle.std.specs.Prelude.{◌≡◌, ◌==◌, ◌&&◌, ℕ, Some, option_copied};
ghost use Rattle.rule_table.specs.declared.kind.Kind.{Kind as Of};
ghost use Rattle.rule_table.specs.Kinds.{same_kind};
ghost use Rattle.pairing_rules.specs.Rows.{held_row};
ghost use Rattle.pairing_rules.specs.Slots.{at_place, key_in, low, seen, shown, vehicle_in};

use crate::held::Held;
use feed_values::given_text;
use rule_table::{EntityKey, Kind};
use std::rc::Rc;

/// A row at a place, which is a number and a kind. Those of one place stand in the order of their rows, after what has none.
#[derive(PartialEq, Eq, PartialOrd, Ord, Drop)]
pub(crate) struct Entry {
    pub number: u32,
    pub kind: Kind,
    pub feed: u8,
    pub row: Option<Rc<Held>>,
}

impl Entry {
    /// A row under a number and its kind.
    pub fn new(number: u32, kind: Kind, row: Rc<Held>) -> Entry
        ensures placed { (n : ℕ) (k : Of) → at_place n k result ≡ (number == n && same_kind kind k) }
        ensures seen { seen result ≡ shown (held_row kind row.value) }
        ensures row { result.row ≡ Some row }
    {
        Entry {
            number,
            kind,
            feed: row.key.feed,
            row: Some(row),
        }
    }

    /// What stands before the rows of a place and a feed.
    pub fn low(number: u32, kind: Kind, feed: u8) -> Entry
        ensures { result ≡ low number kind feed }
    {
        Entry {
            number,
            kind,
            feed,
            row: None,
        }
    }

    pub fn is_at(&self, number: u32, kind: Kind) -> bool
        ensures { result ≡ at_place number kind self.now }
    {
        self.number == number && self.kind == kind
    }

    /// The vehicle of the row.
    pub fn vehicle(&self) -> Option<&str>
        ensures { option_copied result ≡ vehicle_in (seen self.now) }
    {
        match &self.row {
            Some(row) => given_text(&row.vehicle),
            None => None,
        }
    }

    /// The key of the row's entity.
    pub fn key(&self) -> Option<&EntityKey>
        ensures { option_copied result ≡ key_in (seen self.now) }
    {
        match &self.row {
            Some(row) => Some(&row.key),
            None => None,
        }
    }
}

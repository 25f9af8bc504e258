//! The pairing rows of all entities.
ghost use Rattle.std.specs.Prelude.{◌≡◌, ◌+◌, ◌*◌, ◌<◌, ◌≤◌, ◌&&◌, [], IfOk, true, false};
ghost use Rattle.std.specs.List.{list_any};
ghost use Rattle.std.specs.BTreeSet.{insert_key};
ghost use Rattle.std.specs.BTreeMap.{is_at};
ghost use Rattle.std.specs.Set.{remove_key};
ghost use Rattle.std.specs.List.Sorted.{IsStrictlySortedBy};
ghost use Rattle.rule_table.specs.Order.{key_cmp, same_key};
ghost use Rattle.rule_table.specs.declared.key.EntityKey.{EntityKey as Key};
ghost use Rattle.rule_table.specs.Pairs as pairs;
ghost use Rattle.pairing_rules.specs.Rows.{pair_row, row_cmp};

use crate::again::put_rows;
use crate::entry::Entry;
use crate::held::Held;
use crate::names::Names;
use crate::naming::{put_given_keys, put_kind_keys};
use crate::row::PairRow;
use crate::rows::{any_of_kind, any_of_pair};
use crate::seat::Seat;
use crate::slots::{first_at, first_of_feed, has_at, has_either, put_given};
use crate::taking::take_entries;
use feed_values::{Items, given_text};
use rule_table::{EntityKey, Kind, PairView, keys_in_order};
use std::alloc::{AllocError, Global};
use std::collections::{BTreeMap, BTreeSet};
use std::marker::Model;
use std::rc::Rc;

/// Whether more numbers are given than so many rows are to have: twice as many as there are rows, and 1024.
fn is_crowded(rows: usize, numbers: usize) -> bool
    ensures crowded { 2 * rows + 1024 < numbers → result ≡ true }
    ensures roomy { numbers ≤ 2 * rows + 1024 → result ≡ false }
{
    rows.saturating_mul(2).saturating_add(1024) < numbers
}

/// A set of pairing rows, which contracts see as the list of its rows: those of trip updates and then those of vehicle
/// positions, each by feed, id and occurrence. Ids keep their numbers when their rows are taken out, until those without a row are
/// more than the others and some: then the rows are numbered anew, so that memory grows with the rows that are there and not with the ids
/// that were put in, and a row that is put in pays for that once.
#[derive(Drop)]
pub struct PairIndex {
    alloc: Global,
    seats: BTreeMap<Seat, Rc<Held>>,
    ids: Names,
    trips: Names,
    vehicles: Names,
    /// By trip, those that give a vehicle.
    paired: BTreeSet<Entry>,
    /// By trip, those that give none.
    unpaired: BTreeSet<Entry>,
    by_vehicle: BTreeSet<Entry>,
}

impl Model for PairIndex {
    ghost use Rattle.std.specs.Prelude.{List};
    ghost use Rattle.std.specs.BTreeMap.{get_by_text};
    ghost use Rattle.rule_table.specs.Pairs as pairs;
    ghost use Rattle.pairing_rules.specs.Seats.{AreSeated, rows_of};
    ghost use Rattle.pairing_rules.specs.Index.{AreIndexed};

    ghost Value = { List pairs.PairRow };

    ghost view = { λ a. rows_of a.seats.entries };

    ghost invariant = { λ a.
        AreSeated (get_by_text a.ids.numbers) (get_by_text a.trips.numbers) (get_by_text a.vehicles.numbers) a.seats.entries
        × AreIndexed (rows_of a.seats.entries) (get_by_text a.trips.numbers) (get_by_text a.vehicles.numbers) a.paired a.unpaired a.by_vehicle };
}

impl PairIndex {
    /// An index without rows. It takes no memory.
    pub fn new(alloc: Global) -> PairIndex
        ensures { result ≡ [] }
    {
        PairIndex {
            alloc,
            seats: BTreeMap::new(alloc),
            ids: Names::new(alloc),
            trips: Names::new(alloc),
            vehicles: Names::new(alloc),
            paired: BTreeSet::new(alloc),
            unpaired: BTreeSet::new(alloc),
            by_vehicle: BTreeSet::new(alloc),
        }
    }

    /// Puts a row in; one that is held is held once. After want of memory the index is gone.
    pub fn add(self, row: PairRow) -> Result<PairIndex, AllocError>
        ensures rows { IfOk result (λ index. index ≡ insert_key row_cmp self (pair_row row)) }
        ensures ordered { IfOk result (λ index. IsStrictlySortedBy row_cmp index) }
    {
        if is_crowded(self.seats.len(), self.number_count()) {
            let index = self.again()?;
            let next = index.put(row)?;
            return Ok(next);
        }
        let next = self.put(row)?;
        Ok(next)
    }

    /// How many texts have numbers: the ids of entities, the trip ids or the vehicle ids, whichever are most. Those without a row count until the
    /// rows are numbered anew.
    pub fn number_count(&self) -> usize {
        let trips_or_vehicles = self.trips.count().max(self.vehicles.count());
        self.ids.count().max(trips_or_vehicles)
    }

    /// The same rows, whose ids alone have numbers.
    fn again(&self) -> Result<PairIndex, AllocError>
        ensures { IfOk result (λ index. index ≡ self.now) }
    {
        self.stands_in_order();
        let index = put_rows(self.alloc, PairIndex::new(self.alloc), &self.seats)?;
        index.stands_in_order();
        Ok(index)
    }

    /// Puts a row in, whose ids get numbers where they have none.
    pub(crate) fn put(self, row: PairRow) -> Result<PairIndex, AllocError>
        ensures rows { IfOk result (λ index. index ≡ insert_key row_cmp self (pair_row row)) }
        ensures ordered { IfOk result (λ index. IsStrictlySortedBy row_cmp index) }
    {
        let mut index = self;
        let id = index.ids.give(index.alloc, row.id.as_str())?;
        let trip = index.trips.give_given(index.alloc, given_text(&row.trip))?;
        let vehicle = index
            .vehicles
            .give_given(index.alloc, given_text(&row.vehicle))?;
        let seat = Seat::new(&row, id, trip, vehicle);
        let held = Rc::new(index.alloc, Held::new(row))?;
        put_given(&mut index.paired, seat.paired(), seat.kind, &held)?;
        put_given(&mut index.unpaired, seat.unpaired(), seat.kind, &held)?;
        put_given(&mut index.by_vehicle, seat.vehicle, seat.kind, &held)?;
        index.seats.insert(seat, held)?;
        Ok(index)
    }

    /// Takes a row out. It takes no memory.
    pub fn take_out(&mut self, row: &PairRow)
        ensures { self.new ≡ remove_key (is_at (row_cmp (pair_row row.now))) self.old }
    {
        match Seat::find(&self.ids, &self.trips, &self.vehicles, row) {
            Some(seat) => {
                let _count = self.seats.len();
                match self.seats.remove(&seat) {
                    Some(held) => take_entries(
                        &mut self.paired,
                        &mut self.unpaired,
                        &mut self.by_vehicle,
                        &seat,
                        held,
                    ),
                    None => {}
                }
            }
            None => {}
        }
    }

    /// The keys of the rows that share a given trip id or vehicle id with a row, each once, in order.
    pub fn naming(&self, alloc: Global, row: &PairRow) -> Result<Items<EntityKey>, AllocError>
        ensures ordered { IfOk result (λ keys. IsStrictlySortedBy key_cmp keys) }
        ensures named { IfOk result (λ keys. (key : Key) → list_any (same_key key) keys ≡ list_any (λ r. pairs.shares (pair_row row.now) r && same_key key r.key) self.now) }
    {
        let trip = self.trips.number_given(given_text(&row.trip));
        let vehicle = self.vehicles.number_given(given_text(&row.vehicle));
        let mut keys = BTreeSet::new(alloc);
        put_given_keys(&mut keys, &self.paired, trip)?;
        put_given_keys(&mut keys, &self.unpaired, trip)?;
        put_given_keys(&mut keys, &self.by_vehicle, vehicle)?;
        let found = keys_in_order(alloc, keys)?;
        Ok(found)
    }

    /// The keys of the rows of a kind, each once, in order.
    pub fn keys_of(&self, alloc: Global, kind: Kind) -> Result<Items<EntityKey>, AllocError>
        ensures ordered { IfOk result (λ keys. IsStrictlySortedBy key_cmp keys) }
        ensures keys { IfOk result (λ keys. (key : Key) → list_any (same_key key) keys ≡ list_any (λ r. pairs.is_of kind r && same_key key r.key) self.now) }
    {
        let mut keys = BTreeSet::new(alloc);
        put_kind_keys(&mut keys, &self.seats, kind)?;
        let found = keys_in_order(alloc, keys)?;
        Ok(found)
    }

    /// Its rows stand in their order, each once. It does nothing.
    pub fn stands_in_order(&self)
        ensures { IsStrictlySortedBy row_cmp self.now }
    {
        let _ = &self.alloc;
    }
}

impl PairView for PairIndex {
    ghost rows = { λ s. s };

    fn first_vehicle<'a>(&'a self, kind: Kind, trip: &str) -> Option<&'a str> {
        match self.trips.number(trip) {
            Some(number) => match first_at(&self.paired, number, kind) {
                Some(entry) => entry.vehicle(),
                None => None,
            },
            None => None,
        }
    }

    fn has_pair(&self, kind: Kind, trip: &str, vehicle: &str) -> bool {
        match self.trips.number(trip) {
            Some(first) => match self.vehicles.number(vehicle) {
                Some(second) => any_of_pair(&self.seats, kind, first, second),
                None => false,
            },
            None => false,
        }
    }

    fn any_row(&self, kind: Kind) -> bool {
        any_of_kind(&self.seats, kind)
    }

    fn has_trip(&self, kind: Kind, trip: &str) -> bool {
        match self.trips.number(trip) {
            Some(number) => has_either(&self.paired, &self.unpaired, number, kind),
            None => false,
        }
    }

    fn has_vehicle(&self, kind: Kind, vehicle: &str) -> bool {
        match self.vehicles.number(vehicle) {
            Some(number) => has_at(&self.by_vehicle, number, kind),
            None => false,
        }
    }

    fn first_key<'a>(&'a self, feed: u8, vehicle: &str) -> Option<&'a EntityKey> {
        match self.vehicles.number(vehicle) {
            Some(number) => match first_of_feed(&self.by_vehicle, number, Kind::Vehicle, feed) {
                Some(entry) => entry.key(),
                None => None,
            },
            None => None,
        }
    }
}

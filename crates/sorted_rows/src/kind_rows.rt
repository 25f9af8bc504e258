//! The rows of one kind by the ids that they give.

use crate::by_key::{first, has, has_start, sort};
use crate::row::Row;
use rule_table::EntityKey;
use std::alloc::{AllocError, Global};

/// Rows of one kind. A row without ids takes no memory.
#[derive(Drop)]
pub(crate) struct KindRows<'a> {
    any: bool,
    /// Of the rows with both ids, their vehicles under their trips.
    vehicles: Vec<(&'a str, &'a str)>,
    /// The trips of rows that give no vehicle.
    lone_trips: Vec<(&'a str, bool)>,
    /// The trips and vehicles of rows with both.
    pairs: Vec<((&'a str, &'a str), bool)>,
    /// The entities of the rows with vehicles, under the vehicle and the feed.
    keys: Vec<((&'a str, u8), &'a EntityKey)>,
}

impl<'a> KindRows<'a> {
    ghost use Rattle.std.specs.Prelude.{◌≡◌, ◌++◌, ◌∷◌, [], ◌&&◌, false, true, List, OnOk, map, option_and_then, option_copied, option_map, is_some};
    ghost use Rattle.rule_table.specs.declared.kind.Kind.{Kind};
    ghost use Rattle.rule_table.specs.Pairs.{any_row, first_vehicle, has_pair, has_trip, has_vehicle, first_key};
    ghost use Rattle.sorted_rows.specs.ByKey.{Sorts};
    ghost use Rattle.sorted_rows.specs.Rows.{SortsKind, holder_cmp, holder_of, id_cmp, pair_cmp, pair_of, row_value, trip_alone, vehicle_with};

    pub fn new(alloc: Global) -> KindRows<'a>
        ensures any { result.any ≡ false }
        ensures vehicles { result.vehicles.items ≡ [] }
        ensures lone_trips { result.lone_trips.items ≡ [] }
        ensures pairs { result.pairs.items ≡ [] }
        ensures keys { result.keys.items ≡ [] }
    {
        KindRows {
            any: false,
            vehicles: Vec::new(alloc),
            lone_trips: Vec::new(alloc),
            pairs: Vec::new(alloc),
            keys: Vec::new(alloc),
        }
    }

    /// Puts in the ids of a row, behind those of the rows before.
    pub fn push(&mut self, row: Row<'a>) -> Result<(), AllocError>
        ensures any { OnOk result (self.new.any ≡ true) }
        ensures vehicles { OnOk result (self.new.vehicles.items ≡ self.old.vehicles.items ++ vehicle_with row.entry.trip row.entry.vehicle) }
        ensures lone_trips { OnOk result (self.new.lone_trips.items ≡ self.old.lone_trips.items ++ trip_alone row.entry.trip row.entry.vehicle) }
        ensures pairs { OnOk result (self.new.pairs.items ≡ self.old.pairs.items ++ pair_of row.entry.trip row.entry.vehicle) }
        ensures keys { OnOk result (self.new.keys.items ≡ self.old.keys.items ++ holder_of row.entry.key row.entry.vehicle) }
    {
        self.any = true;
        match (row.trip, row.vehicle) {
            (Some(trip), Some(vehicle)) => {
                self.vehicles.push((trip, vehicle))?;
                self.pairs.push(((trip, vehicle), true))?;
                self.keys.push(((vehicle, row.key.feed), row.key))?;
            }
            (Some(trip), None) => self.lone_trips.push((trip, true))?,
            (None, Some(vehicle)) => self.keys.push(((vehicle, row.key.feed), row.key))?,
            (None, None) => {}
        }
        Ok(())
    }

    /// Puts them in order, when all are there.
    pub fn sort(&mut self) -> Result<(), AllocError>
        ensures any { OnOk result (self.new.any ≡ self.old.any) }
        ensures vehicles { OnOk result (Sorts id_cmp self.old.vehicles.items self.new.vehicles.items) }
        ensures lone_trips { OnOk result (Sorts id_cmp self.old.lone_trips.items self.new.lone_trips.items) }
        ensures pairs { OnOk result (Sorts pair_cmp self.old.pairs.items self.new.pairs.items) }
        ensures keys { OnOk result (Sorts holder_cmp self.old.keys.items self.new.keys.items) }
    {
        sort(&mut self.vehicles)?;
        sort(&mut self.lone_trips)?;
        sort(&mut self.pairs)?;
        sort(&mut self.keys)?;
        Ok(())
    }

    pub fn is_any(&self) -> bool
        ensures { result ≡ self.now.any }
    {
        self.any
    }

    pub fn first_vehicle(&self, trip: &str) -> Option<&'a str>
        ensures { (k : Kind) (rs : List Row) → SortsKind k self.now rs → option_copied result ≡ first_vehicle (map row_value rs) k trip.now }
    {
        first(self.vehicles.as_slice(), trip)
    }

    pub fn has_pair(&self, trip: &str, vehicle: &str) -> bool
        ensures { (k : Kind) (rs : List Row) → SortsKind k self.now rs → result ≡ has_pair (map row_value rs) k trip.now vehicle.now }
    {
        has(self.pairs.as_slice(), (trip, vehicle))
    }

    pub fn has_trip(&self, trip: &str) -> bool
        ensures { (k : Kind) (rs : List Row) → SortsKind k self.now rs → result ≡ has_trip (map row_value rs) k trip.now }
    {
        has(self.vehicles.as_slice(), trip) || has(self.lone_trips.as_slice(), trip)
    }

    pub fn has_vehicle(&self, vehicle: &str) -> bool
        ensures { (k : Kind) (rs : List Row) → SortsKind k self.now rs → result ≡ has_vehicle (map row_value rs) k vehicle.now }
    {
        has_start(self.keys.as_slice(), vehicle)
    }

    /// The entity of the first row of a feed that gives the vehicle.
    pub fn first_key(&self, feed: u8, vehicle: &str) -> Option<&'a EntityKey>
        ensures { (rs : List Row) → SortsKind Kind.Vehicle self.now rs → option_copied result ≡ first_key (map row_value rs) feed vehicle.now }
    {
        first(self.keys.as_slice(), (vehicle, feed))
    }
}

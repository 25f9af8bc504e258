//! Pairing rows of both kinds, sorted by their ids.

use crate::kind_rows::KindRows;
use crate::row::Row;
use rule_table::{EntityKey, Kind};
use std::alloc::{AllocError, Global};

/// Pairing rows by their ids, which are borrowed. All are put in, then sorted, and asked for then.
#[derive(Drop)]
pub struct SortedRows<'a> {
    updates: KindRows<'a>,
    vehicles: KindRows<'a>,
}

impl<'a> SortedRows<'a> {
    ghost use Rattle.std.specs.Prelude.{◌≡◌, ◌++◌, ◌∷◌, [], List, OnOk, option_copied};
    ghost use Rattle.rule_table.specs.Pairs.{PairRow, any_row, first_key, first_vehicle, has_pair, has_trip, has_vehicle};
    ghost use Rattle.sorted_rows.specs.Rows.{AnswersBy, Holds, kind_part, row_value};

    pub fn new(alloc: Global) -> SortedRows<'a>
        ensures { Holds result [] }
    {
        SortedRows {
            updates: KindRows::new(alloc),
            vehicles: KindRows::new(alloc),
        }
    }

    /// Puts in a row behind those before.
    pub fn push(&mut self, row: Row<'a>) -> Result<(), AllocError>
        ensures { OnOk result ((rows : List PairRow) → Holds self.old rows → Holds self.new (rows ++ row_value row.entry ∷ [])) }
    {
        match row.kind {
            Kind::TripUpdate => {
                self.updates.push(row)?;
                Ok(())
            }
            Kind::Vehicle => {
                self.vehicles.push(row)?;
                Ok(())
            }
        }
    }

    /// Puts them in order, when all are there.
    pub fn sort(&mut self) -> Result<(), AllocError>
        ensures { OnOk result ((rows : List PairRow) → Holds self.old rows → AnswersBy self.new rows) }
    {
        self.updates.sort()?;
        self.vehicles.sort()?;
        Ok(())
    }

    fn of_kind(&self, kind: Kind) -> &KindRows<'a>
        ensures { result.now ≡ kind_part kind self.now }
    {
        match kind {
            Kind::TripUpdate => &self.updates,
            Kind::Vehicle => &self.vehicles,
        }
    }

    /// The vehicle of the first row of a kind that gives the trip and a vehicle.
    pub fn first_vehicle(&self, kind: Kind, trip: &str) -> Option<&'a str>
        ensures { (rows : List PairRow) → AnswersBy self.now rows → option_copied result ≡ first_vehicle rows kind trip.now }
    {
        self.of_kind(kind).first_vehicle(trip)
    }

    pub fn has_pair(&self, kind: Kind, trip: &str, vehicle: &str) -> bool
        ensures { (rows : List PairRow) → AnswersBy self.now rows → result ≡ has_pair rows kind trip.now vehicle.now }
    {
        self.of_kind(kind).has_pair(trip, vehicle)
    }

    pub fn any_row(&self, kind: Kind) -> bool
        ensures { (rows : List PairRow) → AnswersBy self.now rows → result ≡ any_row rows kind }
    {
        self.of_kind(kind).is_any()
    }

    pub fn has_trip(&self, kind: Kind, trip: &str) -> bool
        ensures { (rows : List PairRow) → AnswersBy self.now rows → result ≡ has_trip rows kind trip.now }
    {
        self.of_kind(kind).has_trip(trip)
    }

    pub fn has_vehicle(&self, kind: Kind, vehicle: &str) -> bool
        ensures { (rows : List PairRow) → AnswersBy self.now rows → result ≡ has_vehicle rows kind vehicle.now }
    {
        self.of_kind(kind).has_vehicle(vehicle)
    }

    /// The entity of the first row of a feed's vehicle position that gives the vehicle.
    pub fn first_key(&self, feed: u8, vehicle: &str) -> Option<&'a EntityKey>
        ensures { (rows : List PairRow) → AnswersBy self.now rows → option_copied result ≡ first_key rows feed vehicle.now }
    {
        self.vehicles.first_key(feed, vehicle)
    }
}

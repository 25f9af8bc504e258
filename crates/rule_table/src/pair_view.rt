//! Views of pairing rows.
ghost use Rattle.std.specs.Prelude.{◌≡◌, List, option_copied};
ghost use Rattle.rule_table.specs.Pairs.{PairRow, any_row, has_trip, has_vehicle, has_pair, first_vehicle, first_key};

use crate::key::EntityKey;
use crate::kind::Kind;

/// What answers the asks on pairing rows, without memory. It stands for a list of rows, in the order of their keys.
pub trait PairView {
    ghost rows: { Self → List PairRow };

    /// The vehicle of the first row of a kind, by feed, id and occurrence, that gives the trip and a vehicle.
    fn first_vehicle<'a>(&'a self, kind: Kind, trip: &str) -> Option<&'a str>
        ensures { option_copied result ≡ first_vehicle (rows self.now) kind trip.now };

    fn has_pair(&self, kind: Kind, trip: &str, vehicle: &str) -> bool
        ensures { result ≡ has_pair (rows self.now) kind trip.now vehicle.now };

    fn any_row(&self, kind: Kind) -> bool
        ensures { result ≡ any_row (rows self.now) kind };

    fn has_trip(&self, kind: Kind, trip: &str) -> bool
        ensures { result ≡ has_trip (rows self.now) kind trip.now };

    fn has_vehicle(&self, kind: Kind, vehicle: &str) -> bool
        ensures { result ≡ has_vehicle (rows self.now) kind vehicle.now };

    /// The first entity of a feed, by id and occurrence, whose vehicle position gives the vehicle.
    fn first_key<'a>(&'a self, feed: u8, vehicle: &str) -> Option<&'a EntityKey>
        ensures { option_copied result ≡ first_key (rows self.now) feed vehicle.now };
}

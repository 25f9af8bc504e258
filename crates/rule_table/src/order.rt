//! Numbers by which slots and places go in order.
ghost use Rattle.std.specs.Prelude.{◌≡◌};
ghost use Rattle.rule_table.specs.Asked.{feed_of};
ghost use Rattle.rule_table.specs.Order.{slot_number};

use crate::place::Place;
use feed_values::Slot;

/// The number in a slot's name.
pub fn slot_number(slot: Slot) -> u8
    ensures { result ≡ slot_number slot }
{
    match slot {
        Slot::S1 => 1,
        Slot::S2 => 2,
        Slot::S3 => 3,
        Slot::S4 => 4,
        Slot::S10 => 10,
        Slot::S11 => 11,
        Slot::S20 => 20,
        Slot::S21 => 21,
        Slot::S22 => 22,
        Slot::S23 => 23,
        Slot::S24 => 24,
        Slot::S25 => 25,
        Slot::S26 => 26,
        Slot::S27 => 27,
        Slot::S28 => 28,
        Slot::S29 => 29,
        Slot::S30 => 30,
        Slot::S31 => 31,
        Slot::S32 => 32,
        Slot::S33 => 33,
        Slot::S34 => 34,
        Slot::S35 => 35,
        Slot::S36 => 36,
        Slot::S37 => 37,
        Slot::S38 => 38,
        Slot::S39 => 39,
        Slot::S40 => 40,
        Slot::S41 => 41,
        Slot::S42 => 42,
        Slot::S43 => 43,
        Slot::S44 => 44,
        Slot::S50 => 50,
        Slot::S51 => 51,
        Slot::S52 => 52,
        Slot::S53 => 53,
        Slot::S54 => 54,
        Slot::S55 => 55,
        Slot::S56 => 56,
        Slot::S57 => 57,
        Slot::S58 => 58,
        Slot::S59 => 59,
        Slot::S60 => 60,
        Slot::S70 => 70,
        Slot::S71 => 71,
        Slot::S72 => 72,
        Slot::S73 => 73,
        Slot::S74 => 74,
        Slot::S75 => 75,
        Slot::S76 => 76,
        Slot::S77 => 77,
        Slot::S78 => 78,
        Slot::S79 => 79,
        Slot::S80 => 80,
        Slot::S81 => 81,
        Slot::S82 => 82,
        Slot::S83 => 83,
        Slot::S84 => 84,
        Slot::S85 => 85,
    }
}

/// The feed that a place is in.
pub fn feed_of(place: &Place) -> u8
    ensures { result ≡ feed_of place.now }
{
    match place {
        Place::Head(feed, _) => *feed,
        Place::Entity(key, _) => key.feed,
    }
}

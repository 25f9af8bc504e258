//! Which kinds of pairing rows there are.
ghost use Rattle.std.specs.Prelude.{◌≡◌};
ghost use Rattle.rule_table.specs.declared.kind.Kind.TheVariants as kind;
ghost use Rattle.rule_table.specs.Pairs.{any_row};

use pairing_rules::PairIndex;
use rule_table::{Kind, PairView};

/// Whether there are rows of trip updates, and of vehicle positions.
#[derive(Clone, Copy)]
pub struct Kinds {
    pub updates: bool,
    pub vehicles: bool,
}

impl Kinds {
    /// Those of some rows. Nothing is searched.
    pub fn of(pairs: &PairIndex) -> Kinds
        ensures updates { result.updates ≡ any_row pairs.now kind.TripUpdate }
        ensures vehicles { result.vehicles ≡ any_row pairs.now kind.Vehicle }
    {
        Kinds {
            updates: pairs.any_row(Kind::TripUpdate),
            vehicles: pairs.any_row(Kind::Vehicle),
        }
    }
}

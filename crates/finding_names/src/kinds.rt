//! Kinds by their names.
ghost use Rattle.std.specs.Prelude.{◌≡◌};
ghost use Rattle.finding_names.specs.Names.{kind_named};

use rule_table::Kind;

/// The kind of a name, such as `vehicle`.
pub fn kind_named(text: &str) -> Option<Kind>
    ensures { result ≡ kind_named text.now }
{
    if text == "trip_update" {
        Some(Kind::TripUpdate)
    } else if text == "vehicle" {
        Some(Kind::Vehicle)
    } else {
        None
    }
}

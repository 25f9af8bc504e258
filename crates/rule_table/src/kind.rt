//! The two kinds of messages that pairing rules bring together.
ghost use Rattle.std.specs.Prelude.{◌≡◌, ◌↔◌, Some, IsTrue};
ghost use Rattle.std.specs.Cmp.{partial_equiv_from_equiv};
ghost use Rattle.std.proofs.Common.{rules};
ghost use Rattle.rule_table.specs.Kinds.{kind_number, kind_cmp, same_kind, kinds_equiv, kinds_total, kinds_po, kinds_tie};

use std::cmp::Ordering;

/// What a pairing row stands for. A trip update comes before a vehicle position.
#[derive(Clone, Copy)]
pub enum Kind {
    TripUpdate,
    Vehicle,
}

impl Kind {
    fn number(self) -> u8
        ensures { result ≡ kind_number self }
    {
        match self {
            Kind::TripUpdate => 0,
            Kind::Vehicle => 1,
        }
    }

    /// Whether it is the other kind.
    pub fn is_kind(self, other: Kind) -> bool
        ensures { IsTrue result ↔ (self ≡ other) }
    {
        match (self, other) {
            (Kind::TripUpdate, Kind::TripUpdate) | (Kind::Vehicle, Kind::Vehicle) => true,
            _ => false,
        }
    }
}

impl PartialEq for Kind {
    ghost eq = { same_kind };

    ghost laws = { partial_equiv_from_equiv kinds_equiv };

    fn eq(&self, other: &Kind) -> bool {
        self.number() == other.number()
    }
}

impl Eq for Kind {
    ghost laws = { kinds_equiv };
}

impl PartialOrd for Kind {
    ghost partial_cmp = { λ x y. Some (kind_cmp x y) };

    ghost laws = { kinds_po };

    fn partial_cmp(&self, other: &Kind) -> Option<Ordering> {
        Some(self.cmp(other))
    }
}

impl Ord for Kind {
    ghost cmp = { kind_cmp };

    ghost total = { kinds_total };

    ghost matches_partial_cmp = { Prim.search rules };

    ghost matches_eq = { kinds_tie };

    fn cmp(&self, other: &Kind) -> Ordering {
        self.number().cmp(&other.number())
    }
}

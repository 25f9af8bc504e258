//! Takes a row out under all of its numbers.
ghost use Rattle.std.specs.Prelude.{◌≡◌, ◌&&◌, ℕ, cond};
ghost use Rattle.std.specs.BTreeMap.{is_at};
ghost use Rattle.std.specs.Set.{remove_key};
ghost use Rattle.rule_table.specs.declared.kind.Kind.{Kind as Of};
ghost use Rattle.rule_table.specs.Kinds.{same_kind};
ghost use Rattle.pairing_rules.specs.Numbers.{is_number, where_given, where_missing};
ghost use Rattle.pairing_rules.specs.Rows.{held_row};
ghost use Rattle.pairing_rules.specs.Slots.{seen_at, seen_cmp, shown};

use crate::entry::Entry;
use crate::held::Held;
use crate::seat::Seat;
use crate::slots::take_given;
use std::collections::BTreeSet;
use std::rc::Rc;

/// Takes a row out by its trip and by its vehicle.
pub(crate) fn take_entries(
    paired: &mut BTreeSet<Entry>,
    unpaired: &mut BTreeSet<Entry>,
    by_vehicle: &mut BTreeSet<Entry>,
    seat: &Seat,
    row: Rc<Held>,
)
    ensures paired { (n : ℕ) (k : Of) → seen_at paired.new n k ≡ cond (is_number n (where_given seat.now.vehicle seat.now.trip) && same_kind seat.now.kind k) (remove_key (is_at (seen_cmp (shown (held_row seat.now.kind row.value)))) (seen_at paired.old n k)) (seen_at paired.old n k) }
    ensures unpaired { (n : ℕ) (k : Of) → seen_at unpaired.new n k ≡ cond (is_number n (where_missing seat.now.vehicle seat.now.trip) && same_kind seat.now.kind k) (remove_key (is_at (seen_cmp (shown (held_row seat.now.kind row.value)))) (seen_at unpaired.old n k)) (seen_at unpaired.old n k) }
    ensures vehicles { (n : ℕ) (k : Of) → seen_at by_vehicle.new n k ≡ cond (is_number n seat.now.vehicle && same_kind seat.now.kind k) (remove_key (is_at (seen_cmp (shown (held_row seat.now.kind row.value)))) (seen_at by_vehicle.old n k)) (seen_at by_vehicle.old n k) }
{
    let row = take_given(paired, seat.paired(), seat.kind, row);
    let row = take_given(unpaired, seat.unpaired(), seat.kind, row);
    take_given(by_vehicle, seat.vehicle, seat.kind, row);
}

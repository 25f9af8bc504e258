//! Fields of slots that the reference got later, which JSON written before has among a message's unknown ones.
ghost use Rattle.std.specs.Prelude.{◌≡◌, true, map, OnOk, IfOk, []};
ghost use Rattle.std.specs.List.{AllByRecursion};
ghost use Rattle.feed_values.specs.Views.{unknown_field};
ghost use Rattle.feed_json.specs.Holds.{Holds};
ghost use Rattle.feed_json.specs.Later.{IsItem, has_later, is_item, is_moved, may_move, moved, settled, unknown_in, with_unknown};

use feed_values::{Items, Slots, Unknown};
use std::alloc::{AllocError, Global};

/// A kind of message with such slots.
pub trait Later: Slots + Drop {
    /// Whether a field is of such a slot.
    fn is_moved(field: &Unknown) -> bool
        ensures { result ≡ is_moved Self.schema (unknown_field field.now) };

    /// Whether the slot takes the value of such a field.
    fn may_move(field: &Unknown) -> bool
        ensures { result ≡ may_move Self.schema (unknown_field field.now) };

    /// Moves a field to its slot, where it is of such a one. The one error is want of memory.
    fn take(&mut self, alloc: Global, field: &Unknown) -> Result<(), AllocError>
        requires { may_move Self.schema (unknown_field field.now) ≡ true }
        ensures moved { OnOk result (Self.value self.new ≡ moved Self.schema (unknown_field field.now) (Self.value self.old)) }
        ensures fits { OnOk result (Holds Self.schema Self.schema (Self.value self.old) → Holds Self.schema Self.schema (Self.value self.new)) };

    /// Puts other unknown fields in the place of those that it has, and gives these.
    fn replace_unknown(&mut self, unknown: Items<Unknown>) -> Items<Unknown>
        ensures given { map unknown_field result ≡ unknown_in Self.schema (Self.value self.old) }
        ensures held { Self.value self.new ≡ with_unknown Self.schema (map unknown_field unknown) (Self.value self.old) };
}

/// Whether a field may be an item of `unknown` in a message with such slots.
pub fn is_item_of<M: Later>(field: &Unknown) -> bool
    requires { has_later M.schema ≡ true }
    ensures { result ≡ is_item M.schema (unknown_field field.now) }
{
    if M::is_moved(field) {
        M::may_move(field)
    } else {
        !M::takes(field)
    }
}

/// Moves the fields of such slots among a message's unknown ones, in their order, and keeps the others.
#[tactic(auto, using(crate::proofs::Settled::ends_at_first, crate::proofs::Settled::ends_moved, crate::proofs::Settled::ends_kept, crate::proofs::Settled::ends_at_last, crate::proofs::Settled::moved_may, crate::proofs::Settled::kept_unknown, crate::proofs::Settled::holds_with, crate::proofs::Lists::all_push))]
pub fn settle<M: Later>(alloc: Global, message: M) -> Result<M, AllocError>
    requires holds { Holds M.schema M.schema (with_unknown M.schema [] (M.value message)) }
    requires items { AllByRecursion (IsItem M.schema) (unknown_in M.schema (M.value message)) }
    ensures settled { IfOk result (λ next. M.value next ≡ settled M.schema (M.value message)) }
    ensures fits { IfOk result (λ next. Holds M.schema M.schema (M.value next)) }
{
    let mut message = message;
    let fields = message.replace_unknown(Items::new(alloc));
    let mut kept = Items::new(alloc);
    for field in fields.into_vec() {
        if M::is_moved(&field) {
            message.take(alloc, &field)?;
        } else {
            kept.push(field)?;
        }
    }
    message.replace_unknown(kept);
    Ok(message)
}

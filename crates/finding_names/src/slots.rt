//! Slots by the texts of their paths.
ghost use Rattle.std.specs.Prelude.{◌≡◌};
ghost use Rattle.finding_names.specs.Paths.{plain_slot, item_slot};

use feed_values::Slot;

/// The slot whose path has this text and no index.
pub(crate) fn plain_slot(text: &str) -> Option<Slot>
    ensures { result ≡ plain_slot text.now }
{
    Slot::all()
        .iter()
        .copied()
        .find(|slot| !slot.has_index() && slot.text() == text)
}

/// The slot whose path has these texts before and behind its index.
pub(crate) fn item_slot(before: &str, after: &str) -> Option<Slot>
    ensures { result ≡ item_slot before.now after.now }
{
    Slot::all().iter().copied().find(|slot| slot.has_index()
        && slot.before_index() == before
        && slot.after_index() == after)
}

//! Rows in the order of a number.
ghost use Rattle.std.specs.Prelude.{◌≡◌, ◌==◌, ◌&&◌, ◌||◌, ℕ, OnOk, Some, cond, option_copied, option_map, true};
ghost use Rattle.std.specs.List.{find, list_any};
ghost use Rattle.std.specs.List.Sorted.{IsStrictlySortedBy};
ghost use Rattle.std.specs.BTreeSet.{insert_key};
ghost use Rattle.std.specs.BTreeMap.{is_at};
ghost use Rattle.std.specs.Set.{remove_key};
ghost use Rattle.std.specs.Ordering.{is_le};
ghost use Rattle.rule_table.specs.declared.kind.Kind.{Kind as Of};
ghost use Rattle.rule_table.specs.Kinds.{same_kind};
ghost use Rattle.pairing_rules.specs.Numbers.{is_number};
ghost use Rattle.pairing_rules.specs.Rows.{held_row};
ghost use Rattle.pairing_rules.specs.Slots.{seen, seen_at, seen_cmp, shown, entry_cmp, at_place};

use crate::entry::Entry;
use crate::held::Held;
use rule_table::Kind;
use std::alloc::AllocError;
use std::collections::BTreeSet;
use std::rc::Rc;

/// Puts a row in under a number.
pub(crate) fn put_row(
    entries: &mut BTreeSet<Entry>,
    number: u32,
    kind: Kind,
    row: &Rc<Held>,
) -> Result<(), AllocError>
    ensures { OnOk result ((n : ℕ) (k : Of) → seen_at entries.new n k ≡ cond (number == n && same_kind kind k) (insert_key seen_cmp (seen_at entries.old n k) (shown (held_row kind row.now.value))) (seen_at entries.old n k)) }
{
    let _count = entries.len();
    let entry = Entry::new(number, kind, row.clone()?);
    entries.insert(entry)?;
    Ok(())
}

/// Puts a row in under a number that may be given.
pub(crate) fn put_given(
    entries: &mut BTreeSet<Entry>,
    number: Option<u32>,
    kind: Kind,
    row: &Rc<Held>,
) -> Result<(), AllocError>
    ensures { OnOk result ((n : ℕ) (k : Of) → seen_at entries.new n k ≡ cond (is_number n number && same_kind kind k) (insert_key seen_cmp (seen_at entries.old n k) (shown (held_row kind row.now.value))) (seen_at entries.old n k)) }
{
    match number {
        Some(number) => put_row(entries, number, kind, row),
        None => Ok(()),
    }
}

/// Takes a row out under a number, and gives it back.
pub(crate) fn take_row(
    entries: &mut BTreeSet<Entry>,
    number: u32,
    kind: Kind,
    row: Rc<Held>,
) -> Rc<Held>
    ensures taken { (n : ℕ) (k : Of) → seen_at entries.new n k ≡ cond (number == n && same_kind kind k) (remove_key (is_at (seen_cmp (shown (held_row kind row.value)))) (seen_at entries.old n k)) (seen_at entries.old n k) }
    ensures back { result ≡ row }
{
    let entry = Entry::new(number, kind, row);
    entries.remove(&entry);
    match entry.row {
        Some(row) => row,
        None => unreachable!(),
    }
}

/// Takes a row out under a number that may be given, and gives it back.
pub(crate) fn take_given(
    entries: &mut BTreeSet<Entry>,
    number: Option<u32>,
    kind: Kind,
    row: Rc<Held>,
) -> Rc<Held>
    ensures taken { (n : ℕ) (k : Of) → seen_at entries.new n k ≡ cond (is_number n number && same_kind kind k) (remove_key (is_at (seen_cmp (shown (held_row kind row.value)))) (seen_at entries.old n k)) (seen_at entries.old n k) }
    ensures back { result ≡ row }
{
    match number {
        Some(number) => take_row(entries, number, kind, row),
        None => row,
    }
}

/// The first entry at or after one.
fn first_from<'a>(entries: &'a BTreeSet<Entry>, low: &Entry) -> Option<&'a Entry>
    ensures first { option_copied result ≡ find (λ e. is_le (entry_cmp low.now e)) entries.now.keys }
    ensures ordered { IsStrictlySortedBy entry_cmp entries.now.keys }
{
    entries.range(low..).next()
}

/// The first row at a place.
pub(crate) fn first_at(entries: &BTreeSet<Entry>, number: u32, kind: Kind) -> Option<&Entry>
    ensures { option_map seen (option_copied result) ≡ find (λ _. true) (seen_at entries.now number kind) }
{
    let low = Entry::low(number, kind, 0);
    match first_from(entries, &low) {
        Some(entry) => {
            if entry.is_at(number, kind) {
                Some(entry)
            } else {
                None
            }
        }
        None => None,
    }
}

fn is_of_feed(entry: &Entry, number: u32, kind: Kind, feed: u8) -> bool
    ensures { result ≡ (at_place number kind entry.now && entry.now.feed == feed) }
{
    entry.is_at(number, kind) && entry.feed == feed
}

/// The first row of a feed at a place.
pub(crate) fn first_of_feed(
    entries: &BTreeSet<Entry>,
    number: u32,
    kind: Kind,
    feed: u8,
) -> Option<&Entry>
    ensures { option_map seen (option_copied result) ≡ find (λ s. s.feed == feed) (seen_at entries.now number kind) }
{
    let low = Entry::low(number, kind, feed);
    match first_from(entries, &low) {
        Some(entry) => {
            if is_of_feed(entry, number, kind, feed) {
                Some(entry)
            } else {
                None
            }
        }
        None => None,
    }
}

/// Whether there is a row at a place.
pub(crate) fn has_at(entries: &BTreeSet<Entry>, number: u32, kind: Kind) -> bool
    ensures { result ≡ list_any (λ _. true) (seen_at entries.now number kind) }
{
    first_at(entries, number, kind).is_some()
}

/// Whether there is a row at a place in one of two sets.
pub(crate) fn has_either(
    entries: &BTreeSet<Entry>,
    others: &BTreeSet<Entry>,
    number: u32,
    kind: Kind,
) -> bool
    ensures { result ≡ (list_any (λ _. true) (seen_at entries.now number kind) || list_any (λ _. true) (seen_at others.now number kind)) }
{
    if has_at(entries, number, kind) {
        true
    } else {
        has_at(others, number, kind)
    }
}

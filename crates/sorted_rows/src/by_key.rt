//! Values under keys as lists of both, which are put in first and sorted then.
ghost use Rattle.std.specs.Prelude.{◌≡◌, List, OnOk};
ghost use Rattle.sorted_rows.specs.ByKey.{Sorts, first_value, has_key, has_start};

use std::alloc::AllocError;

/// Puts entries in the order of their keys. Those of one key stay in their order.
pub(crate) fn sort<K: Ord + Copy + Drop, V>(entries: &mut Vec<(K, V)>) -> Result<(), AllocError>
    ensures { OnOk result (Sorts K.cmp entries.old.items entries.new.items) }
{
    entries.sort_by_key(|entry| entry.0)?;
    Ok(())
}

/// The value that was put in first under a key.
pub(crate) fn first<K: Ord + Copy, V: Copy + Drop>(entries: &[(K, V)], key: K) -> Option<V>
    ensures { (put : List (K × V)) → Sorts K.cmp put entries.now → result ≡ first_value K.cmp put key }
{
    let at = entries.partition_point(|entry| entry.0.cmp(&key).is_lt());
    match entries.get(at) {
        Some(entry) => entry.0.cmp(&key).is_eq().then_some(entry.1),
        None => None,
    }
}

/// Whether a key was put in.
pub(crate) fn has<K: Ord + Copy, V>(entries: &[(K, V)], key: K) -> bool
    ensures { (put : List (K × V)) → Sorts K.cmp put entries.now → result ≡ has_key K.cmp put key }
{
    let at = entries.partition_point(|entry| entry.0.cmp(&key).is_lt());
    match entries.get(at) {
        Some(entry) => entry.0.cmp(&key).is_eq(),
        None => false,
    }
}

/// Whether a key of two parts was put in whose first part this is.
pub(crate) fn has_start<A: Ord + Copy, B: Ord + Copy, V>(entries: &[((A, B), V)], start: A) -> bool
    ensures { (put : List ((A × B) × V)) → Sorts ⟦<(A, B) as Ord>⟧.cmp put entries.now → result ≡ has_start A.cmp put start }
{
    let at = entries.partition_point(|entry| entry.0.0.cmp(&start).is_lt());
    match entries.get(at) {
        Some(entry) => entry.0.0.cmp(&start).is_eq(),
        None => false,
    }
}

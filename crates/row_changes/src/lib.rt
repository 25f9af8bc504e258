//! The pairing rows and timestamps of all entities, held from snapshot to snapshot, and the entities to which one more snapshot
//! matters though their own bytes stay: those whose rows share an id with one that came or went, or are looked up in a kind of
//! rows that came or went whole, and those with a timestamp above a bound that moved.
//!
//! `held` exchanges the rows and timestamps of one entity (`rows`, `stamps`) and notes the ids that changed (`ids`). `touched` has
//! the keys that are judged again, by the ids, the kinds of rows that there were (`kinds`) and the lower bound (`bound`). The work
//! grows with what changed and with the keys that are found, and a logarithm. `laws` say that the keys are those of the
//! definitions over histories, and that the rows held answer as the rows of all feeds do.
#![tactic(auto)]

mod bound;
mod held;
mod ids;
mod kinds;
mod laws;
mod rows;
mod stamps;
mod touched;

pub use bound::low_bound;
pub use held::HeldRows;
pub use ids::ChangedIds;
pub use kinds::Kinds;
pub use laws::{
    all_is_replaced, held_rows_are_alike, held_rows_are_those, none_is_later, nothing_is_held,
    over_keys_are, paired_keys_are, start_replaces, update_replaces,
};
pub use touched::{bounded_keys, keys_above, paired_keys};

//! The rules on the timestamps of entities, on what a vehicle told before and on headers, as three groups of rows of the table of `rule_table`.
//! Beside them the timestamps of all entities as a set, which says whose timestamps are above a bound, and the peaks of all feeds: the greatest
//! timestamp that each vehicle gave.
//!
//! `bound_group`, `peak_group` and `head_group` are the groups. `stamp_index` is the set: by feed (`moment`) the keys under each timestamp
//! (`stamp_groups`), and `keys` are keys, each once. `peaks` are the peaks, by feed and vehicle id.
#![tactic(auto)]

mod bound_group;
mod head_group;
mod keys;
mod moment;
mod peak_group;
mod peaks;
mod stamp_groups;
mod stamp_index;

pub use bound_group::BoundGroup;
pub use head_group::{HeadAnswers, HeadGroup};
pub use peak_group::{PeakAnswers, PeakGroup};
pub use peaks::Peaks;
pub use stamp_index::StampIndex;

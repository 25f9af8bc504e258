//! An entity's findings in four parts, by what they rest on: the entity with the timetable, the pairing rows of all entities, the bounds of
//! timestamps, and the peaks of vehicles. Each part is judged by itself, and the four together are the findings of all rules.
//!
//! `part` is what the four have in common, `rules` holds the groups of rules, and `local`, `paired`, `bounded` and `peaked` are the parts. `laws` says that the
//! parts are the whole.
#![tactic(auto)]

mod bounded;
mod laws;
mod local;
mod paired;
mod part;
mod peaked;
mod rules;

pub use bounded::BoundedPart;
pub use judging::HeaderRules;
pub use laws::{parts_are_the_whole, parts_rise};
pub use local::LocalPart;
pub use paired::PairedPart;
pub use part::EntityPart;
pub use part_laws::{Closed, FourLists, Opened, Standing, put_closed, put_opened, renew};
pub use peaked::PeakedPart;
pub use rules::PartRules;

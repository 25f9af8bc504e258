//! Which alerts are in force at a moment, for an agency, a route, a trip or a stop, and when that can change.
//!
//! `specs/InForce.antt` is that definition, over the entities of feeds as values. Of an alert it takes when it is shown and whom it
//! concerns, and nothing else. Moments are POSIX time in seconds.
//!
//! - `query`: for whom it is asked
//! - `period`: a stretch of time in which an alert is shown
//! - `terms`: an alert, as far as it is looked at
//! - `laws`: that the next change is the least of those to come, and that nothing changes before it
#![tactic(auto)]

mod laws;
mod period;
mod query;
mod terms;

pub use laws::{next_is_least, nothing_changes_before_next};
pub use period::Period;
pub use query::Query;
pub use terms::AlertTerms;

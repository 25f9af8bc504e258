//! Looks at an entity before its rules are judged, and the rules on one entity and the timetable that they spare.
//!
//! Stop time updates are looked at before any rule is judged: where all are sound, or keep to the timetable (`clear`, `sound`,
//! `keeping`, with the `known_trip` of the entity looked up once), fifteen rules needn't be asked at each of them; where each gives its
//! schedule_relationship or its stop_sequence, or the entity has no trip update or no vehicle position, others needn't. `Clear` is what
//! was seen. All that it says is that a rule breaks nowhere at a slot, for whatever answers as the entity and the timetable do.
//!
//! `local_rule` is what judges one entity by itself and against the timetable. `listed` judges some rules of the table so, one
//! after the other, after the look that its rules are for.
#![tactic(auto)]

mod clear;
mod keeping;
mod known_trip;
mod listed;
mod local_rule;
mod sound;

pub use clear::{Clear, Look};
pub use listed::Listed;
pub use local_rule::{LocalAnswers, LocalRule};

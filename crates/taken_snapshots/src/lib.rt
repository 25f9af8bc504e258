//! A snapshot taken in: what it brings and touches is known before it takes its place among what is held (`preparing`); then it is put there, and what it
//! changes is judged (`placing`), after what closes at entities that are gone and what opens and closes on its header (`telling`).
#![tactic(auto)]

mod placing;
mod preparing;
mod telling;

pub use placing::{Judged, judge};
pub use preparing::{Changed, Ready, prepare};
pub use snapshot_steps::{
    Closed, EntitiesIter, EntityIndex, Feeds, FindingsIter, HeaderRules, HeldFeeds, HeldRows,
    Judging, LocalPart, Moved, Opened, PartRules, Renewal, Rules, Taken, Tolds, Touched, hand_out,
    judge_again,
};

//! Another timetable in the place of the one with which entities were judged.
//!
//! `retabling` judges the entities that the other timetable concerns again, where they are held, and tells what that opens and closes; all others keep what
//! stands at them, and so do headers. `laws` says that what matched a history with the one timetable then matches it with the other.
#![tactic(auto)]

mod laws;
mod retabling;

pub use laws::exchange_retables;
pub use retabling::{Retabled, retable};
pub use taken_snapshots::{
    Changed, Closed, EntitiesIter, EntityIndex, Feeds, FindingsIter, HeaderRules, HeldFeeds,
    HeldRows, Judged, Judging, Moved, Opened, PartRules, Ready, Rules, Taken, Tolds, Touched,
    hand_out, judge, prepare,
};

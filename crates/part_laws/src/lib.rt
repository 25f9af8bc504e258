//! What one more snapshot leaves as it is, and what may be done part by part: laws on which an engine rests that judges again only what changed.
//!
//! An entity's findings have parts, each of a group of rules. The functions of `laws` say which entities keep a part, for every type that
//! implements the trait of such groups, by what the trait promises alone; that four parts which are renewed and compared each by itself are the
//! whole list renewed and compared; and that what opened and closed is had at the keys that a snapshot touched. None of them does anything.
#![tactic(auto)]

mod laws;

pub use laws::{
    bounded_part_stays, bounds_are_low, local_part_stays, merged_closes, merged_is_by_rule,
    merged_opens, merged_renews, none_is_bounded, paired_part_stays, peaked_part_stays,
    touched_close, touched_open,
};
pub use standing_walks::{Closed, FourLists, Opened, Standing, put_closed, put_opened, renew};

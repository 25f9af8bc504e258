//! What one snapshot brings, which keys it touches, and what is found under them: the steps by which an engine follows it, each by itself.
//!
//! A `taken` snapshot is compared with the one that is held of its feed and decoded where it is new (`coming`); the pairing rows and timestamps of what
//! came and went are exchanged (`moving`), which tells by keys, with the peaks that it raises, what else is to be judged again (`touching`). Then its header is judged (`renewing`), and
//! the four parts of entities' findings are judged under these keys (`parts`), by the groups of rules (`rules`).
#![tactic(auto)]

mod coming;
mod moving;
mod parts;
mod renewing;
mod rules;
mod taken;
mod touching;

pub use coming::{Coming, come};
pub use held_feeds::{
    BoundedPart, Closed, EntitiesIter, EntityIndex, Feeds, FindingsIter, Header, HeaderRules,
    HeldFeeds, HeldRows, LocalPart, Opened, PairedPart, PartRules, PeakedPart, Renewal, Standing,
    Tolds, close_gone, exchange, hand_out, judge_again, put_header,
};
pub use moving::{Moved, move_rows};
pub use parts::{PartJudges, judge_parts};
pub use renewing::renew_header;
pub use rules::{Judging, Rules};
pub use taken::Taken;
pub use touching::{Touched, touch};
pub use vehicle_peaks::Rises;

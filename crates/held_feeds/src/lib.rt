//! What an engine holds of all feeds, and what it hands out of it in order.
//!
//! `feeds` is what is held: the entities with what stands at them, the headers, and the pairing rows and timestamps of the entities. `findings` and
//! `entities` hand out what stands and the entities, one feed after the other, without memory.
#![tactic(auto)]

mod entities;
mod feeds;
mod findings;

pub use entities::EntitiesIter;
pub use feeds::{Feeds, Header, HeldFeeds, put_header};
pub use findings::FindingsIter;
pub use row_changes::{
    ChangedIds, HeldRows, Kinds, bounded_keys, keys_above, low_bound, paired_keys,
};
pub use touched_entities::{
    BoundedPart, Changes, Closed, EntityIndex, HeaderRules, Incoming, LocalPart, Opened,
    PairedPart, PartRules, PeakedPart, Renewal, Standing, Tolds, close_gone, decode_fresh,
    exchange, fresh_are_there, hand_out, judge_again, renew,
};

//! Entities judged again part by part where they are held, with what that opens and closes.
//!
//! `told` is what opened and closed at a header or an entity, and `tolds` holds it feed by feed under the keys of entities until all is judged.
//! `coming` decodes what is new in a snapshot, and `exchanging` puts a snapshot in the place of the one before it with the lists that stood.
//! `again` judges one part of some entities again, `leaving` closes what stood at entities that are gone, and `handing` hands out all that was told,
//! in the order of findings; `ordering` puts what is of rules in their order.
#![tactic(auto)]

mod again;
mod coming;
mod exchanging;
mod handing;
mod leaving;
mod ordering;
mod told;
mod tolds;

pub use again::{Renewal, judge_again};
pub use coming::decode_fresh;
pub use entity_index::{
    Changes, EntitiesIter, EntityIndex, Incoming, Parts, PartsIter, fresh_are_there,
};
pub use entity_parts::{
    BoundedPart, Closed, FourLists, HeaderRules, LocalPart, Opened, PairedPart, PartRules,
    PeakedPart, Standing, renew,
};
pub use exchanging::exchange;
pub use handing::hand_out;
pub use leaving::close_gone;
pub use told::Told;
pub use tolds::Tolds;

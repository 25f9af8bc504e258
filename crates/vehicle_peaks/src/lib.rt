//! The vehicles of a feed whose peak its last snapshot raises once another one comes: that snapshot is then one of those before the
//! last.
//!
//! `rises` has each such vehicle with its new peak (`gathering`), puts these among the peaks of all feeds, and has the keys of the
//! entities whose vehicle is one of them (`keys`): they are judged again though their own bytes stay. The work grows with the
//! entities of the feed, and a logarithm. `stamped` reads what an entity gives. `laws` say that the peaks are then those of the definitions over histories, and
//! that the vehicles are those whose peak is another.
#![tactic(auto)]

mod gathering;
mod keys;
mod laws;
mod rises;
mod stamped;

pub use laws::{rise_moves, rise_raises, rises_move, rises_raise};
pub use rises::Rises;

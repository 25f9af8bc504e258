//! Findings that stand since a snapshot, in lists that are in order: what an engine of any kind does with them.
//!
//! A `standing` is a finding with the number of the snapshot since which its rule stands at its place, and `changes` are what is handed out
//! of one that opened or closed; what opened shares the finding that stands (`shared`). `walking` compares a list with the one before it, by one walk over both in their `order`: it numbers what was found
//! now, and tells what opened and what closed. `merging` hands out two or four lists as one, by the rules' numbers, without memory.
#![tactic(auto)]

mod changes;
mod merging;
mod order;
mod shared;
mod standing;
mod walking;

pub use changes::{Closed, Opened};
pub use merging::{FourLists, TwoLists};
pub use order::compare_findings;
pub use shared::SharedFinding;
pub use standing::Standing;
pub use walking::{put_closed, put_opened, renew};

//! The alerts that an engine holds: which of them are in force at a moment, and when that can change.
//!
//! An [`AlertView`] is made of an engine once, and asked as often as one likes. What is in force is as `alert_terms` defines it, over the
//! entities of the history that the engine stands for. It borrows the alerts from the engine, and copies nothing of them.
//!
//! - `view`: the alerts of an engine
#![tactic(auto)]

mod view;

pub use alert_terms::Query;
pub use view::AlertView;

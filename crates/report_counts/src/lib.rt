//! What the lines of a report come to.
//!
//! [`Counts`] takes the lines of a report one by one; what it is then is said of the list of them by `specs/Counts.antt`. Its memory grows
//! with the rules, and with the places that a report of `follow` names.
//!
//! - `shown`: the first few of many
//! - `tallies`: the lines of each rule
//! - `counts`: the lines of a report
//! - `gate`: whether a report fails
//! - `laws`: laws of the definitions
#![tactic(auto)]

mod counts;
mod gate;
mod laws;
mod shown;
mod tallies;

pub use counts::Counts;
pub use gate::FailOn;
pub use laws::each_line_counts;
pub use tallies::Tallies;

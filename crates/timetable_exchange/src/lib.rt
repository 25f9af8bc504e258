//! A timetable exchanged while feeds are followed: only the entities are judged again for which the old timetable and the new one don't agree.
//!
//! `touching` compares the two timetables for each entity that an engine holds, and `exchanging` gives the engine the new one. `change` is what that
//! changed.
#![tactic(auto)]

mod change;
mod exchanging;
mod touching;

pub use change::Exchange;
pub use exchanging::exchange;

//! Stop predictions: which update of a trip update governs each event of a trip, and when it happens.
//!
//! A trip's events are the arrival and the departure of each stop. Updates are matched with the stops in the order of the
//! trip; those that are matched set delays, and the delay of the whole trip is set before the first event; each delay
//! goes on until the next one. `Resolver::predict` answers a row for each event, and for each update that matches no stop.
//!
//! From the bottom up: `source`, `setter`, `placed_setter` (a setter with its position), `event_kind`, `row_state` and `prediction_row` are what is answered; `own` and
//! `event` are an event with the update of its stop; `visit` and `stops` are the stops of the trip, found by what an update
//! names, and `matching` is the stop of each update; `setting` tells what an event's update sets, and `outcome` what is predicted; `walk` goes through the
//! events, and `rows` makes the rows of updates; `predictions` holds what is answered, and `resolver` decides the mode.
//! `laws` says that the definitions of the contracts are what they stand for.
#![tactic(auto)]

mod event;
mod event_kind;
mod laws;
mod matching;
mod outcome;
mod own;
mod placed_setter;
mod prediction_row;
mod predictions;
mod resolver;
mod row_state;
mod rows;
mod setter;
mod setting;
mod source;
mod stops;
mod visit;
mod walk;

pub use event_kind::EventKind;
pub use laws::{the_greatest_setter_governs, updates_match_in_one_way};
pub use prediction_row::PredictionRow;
pub use predictions::Predictions;
pub use resolver::Resolver;
pub use row_state::RowState;
pub use setter::Setter;
pub use source::Source;

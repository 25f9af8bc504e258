//! The calendar of trips: zones, the origins of service days, the days on which services run, and the service day of a trip.
//!
//! A trip's times count from the origin of its service day, which is noon of that day less twelve hours: so they are right
//! also where the clocks change at night. From the bottom up: `zone` is a place's clocks, by a POSIX rule or a zone file,
//! and `zone_fault` why there is none;
//! `origins` has the origin of a day and the local date of a moment; `services` tells whether a service runs on a day;
//! `trips` has a trip's first given time and its shift; `candidate` and `service_days` find the service day of a trip
//! descriptor. `laws` says what the nearest day is, and that the text of a
//! rule decides the offsets of its zone.
#![tactic(auto)]

mod candidate;
mod laws;
mod origins;
mod service_days;
mod services;
mod trips;
mod zone;
mod zone_fault;

pub use laws::{nearest_is_least, rule_choices_follow_the_text, rule_offsets_follow_the_text};
pub use origins::{local_day, origin};
pub use service_days::service_day;
pub use services::runs_on;
pub use trips::{first_time, shift};
pub use zone::Zone;
pub use zone_fault::ZoneFault;

//! When two timetables agree for an entity: whether rules can find at it with the one what they don't find with the other.
//!
//! An entity names rows of a timetable: trips, routes, stops and agencies, by their ids. Where all of these are the same in
//! two timetables, in all that rules ask of them, whatever is found by the entity and its timetable is the same with either.
//! So of many entities only those for which an old timetable and a new one don't agree need be tested again.
//!
//! - `agreeing`: one entity, without memory
//! - `comparison`: many entities, where it is remembered what was found of each trip
//! - `named`: what the parts of an entity name
//! - `trips`: one trip in two timetables
//! - `laws`: what agreeing is, and what it is for
#![tactic(auto)]

mod agreeing;
mod comparison;
mod laws;
mod named;
mod trips;

pub use agreeing::agrees;
pub use comparison::Comparison;
pub use laws::{
    agreeing_reads_as_sets, agreeing_tables_find_alike, agreeing_timetables_find_alike,
};

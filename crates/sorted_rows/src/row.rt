//! Pairing rows of borrowed ids.
use rule_table::{EntityKey, Kind};

/// A trip update or a vehicle position of an entity, with the ids that it gives.
#[derive(Clone, Copy)]
pub struct Row<'a> {
    pub kind: Kind,
    pub key: &'a EntityKey,
    pub trip: Option<&'a str>,
    pub vehicle: Option<&'a str>,
}

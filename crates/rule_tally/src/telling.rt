//! What a line tells of its rule.

use feed_values::Text;

/// What a line tells of its rule. Each entity and each place has a name of its own.
#[derive(Drop)]
pub enum Telling {
    /// It breaks, at this entity or on a header: a line `finding` of `check`.
    Finding(Option<Text>),
    /// It came to break at this entity or on a header, at this place, or breaks there by other facts: a line `opened` of `follow`.
    Opened(Option<Text>, Text),
    /// It breaks at this place no more: a line `closed` of `follow`.
    Closed(Text),
}

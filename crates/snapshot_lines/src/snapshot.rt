//! The lines of a snapshot.
ghost use Rattle.std.specs.Prelude.{◌≡◌, IfOk};
ghost use Rattle.serde_json.specs.View.{view};
ghost use Rattle.snapshot_lines.specs.Lines.{line_of, accepted, refused, reason_name};

use crate::line::line_of;
use feed_codec::{Reason, Refusal};
use feed_values::Required;
use serde_json::{Value, json};
use std::alloc::{AllocError, Global};

/// What the line of an accepted snapshot says.
#[derive(Clone, Copy, Debug)]
pub struct Accepted {
    /// The snapshot's feed.
    pub feed: u8,
    /// Its file, or its row of a list, from 0.
    pub row: u64,
    /// Its number in the history.
    pub snapshot: u64,
    /// The moment it was taken at, as POSIX time in seconds.
    pub moment: u64,
    /// How many entities it has.
    pub entities: u64,
    /// How many of these are new or have other bytes.
    pub tested: u64,
    /// Those, and those whose pairs changed.
    pub paired: u64,
    /// Those, and those whose bounds changed.
    pub bounded: u64,
    /// Those, and those whose vehicle's peak changed.
    pub peaked: u64,
}

fn accepted_value(alloc: Global, it: &Accepted) -> Result<Value, AllocError>
    ensures { IfOk result (λ value. view value ≡ accepted it.now) }
{
    json!(in alloc; {
        "bounded": it.bounded,
        "entities": it.entities,
        "feed": it.feed,
        "line": "accepted",
        "moment": it.moment,
        "paired": it.paired,
        "peaked": it.peaked,
        "row": it.row,
        "snapshot": it.snapshot,
        "tested": it.tested,
    })
}

/// The line of an accepted snapshot.
pub fn accepted_line(alloc: Global, it: &Accepted) -> Result<Vec<u8>, AllocError>
    ensures { IfOk result (λ bytes. bytes.items ≡ line_of (accepted it.now)) }
{
    let value = accepted_value(alloc, it)?;
    line_of(alloc, &value)
}

fn reason_name(reason: Reason) -> &'static str
    ensures { result.now ≡ reason_name reason }
{
    match reason {
        Reason::Truncated => "Truncated",
        Reason::VarintTooLong => "VarintTooLong",
        Reason::BadTag => "BadTag",
        Reason::BadWireType => "BadWireType",
        Reason::Overrun => "Overrun",
        Reason::LoneEndGroup => "LoneEndGroup",
        Reason::GroupMismatch => "GroupMismatch",
        Reason::TooDeep => "TooDeep",
        Reason::NotText => "NotText",
        Reason::MissingField(Required::Header) => "MissingField(header)",
        Reason::MissingField(Required::Version) => "MissingField(version)",
        Reason::MissingField(Required::Id) => "MissingField(id)",
        Reason::MissingField(Required::Trip) => "MissingField(trip)",
        Reason::MissingField(Required::Latitude) => "MissingField(latitude)",
        Reason::MissingField(Required::Longitude) => "MissingField(longitude)",
        Reason::MissingField(Required::Text) => "MissingField(text)",
        Reason::Differential => "Differential",
        Reason::TooLarge => "TooLarge",
        Reason::NoFile => "NoFile",
    }
}

fn refused_value(alloc: Global, row: u64, refusal: &Refusal) -> Result<Value, AllocError>
    ensures { IfOk result (λ value. view value ≡ refused row refusal.now) }
{
    json!(in alloc; {
        "at": refusal.at as u64,
        "line": "refused",
        "reason": reason_name(refusal.reason),
        "row": row,
    })
}

/// The line of a refused snapshot, in the file or list row `row` from 0.
pub fn refused_line(alloc: Global, row: u64, refusal: &Refusal) -> Result<Vec<u8>, AllocError>
    ensures { IfOk result (λ bytes. bytes.items ≡ line_of (refused row refusal.now)) }
{
    let value = refused_value(alloc, row, refusal)?;
    line_of(alloc, &value)
}

//! Snapshots that are gathered before anything is written.
ghost use Rattle.std.specs.Prelude.{◌≡◌, ◌++◌, ◌∷◌, [], map, OnOk};
ghost use Rattle.feed_values.specs.Snapshot.{snapshot_value};
ghost use Rattle.run_base.specs.Found.{kept_bytes};
ghost use Rattle.run_merge.specs.Gathering.{value_said};
ghost use Rattle.run_merge.specs.Merged.{accepted_values, refused_lines};

use feed_codec::Refusal;
use feed_stream::Kept;
use feed_values::Items;
use snapshot_lines::refused_line;
use std::alloc::{AllocError, Global};

/// What files hold.
#[derive(Drop)]
pub struct Gathered {
    /// The accepted snapshots, in order.
    pub feeds: Items<Kept>,
    /// The lines of the refused ones, in order.
    pub refused: Vec<u8>,
}

impl Gathered {
    /// Nothing yet.
    pub fn new(alloc: Global) -> Gathered
        ensures feeds { result.feeds ≡ [] }
        ensures refused { result.refused.items ≡ [] }
    {
        Gathered {
            feeds: Items::new(alloc),
            refused: Vec::new(alloc),
        }
    }

    /// Adds what the file of this number holds, counted from 0.
    pub fn add(
        &mut self,
        alloc: Global,
        number: u64,
        found: Result<Kept, Refusal>,
    ) -> Result<(), AllocError>
        ensures feeds { OnOk result (map snapshot_value self.new.feeds
            ≡ map snapshot_value self.old.feeds ++ accepted_values (value_said (kept_bytes found) ∷ [])) }
        ensures refused { OnOk result (self.new.refused.items
            ≡ self.old.refused.items ++ refused_lines number (value_said (kept_bytes found) ∷ [])) }
    {
        match found {
            Ok(kept) => Ok(self.feeds.push(kept)?),
            Err(refusal) => {
                let line = refused_line(alloc, number, &refusal)?;
                self.refused.extend_from_slice(&line)
            }
        }
    }
}

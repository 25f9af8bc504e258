//! The rows and timestamps of entities.
ghost use Rattle.std.specs.Prelude.{◌≡◌, [], IfOk, OnOk, option_map, option_copied};
ghost use Rattle.feed_values.specs.Views.{entity_value};
ghost use Rattle.row_changes.specs.Updated.{IsUpdated, AreNoted};

use crate::ids::ChangedIds;
use crate::rows::update_rows;
use crate::stamps::update_stamps;
use feed_values::Entity;
use history_rules::StampIndex;
use pairing_rules::PairIndex;
use rule_table::EntityKey;
use std::alloc::{AllocError, Global};

/// The pairing rows and the timestamps of the entities that are held, of all feeds.
#[derive(Drop)]
pub struct HeldRows {
    pub pairs: PairIndex,
    pub stamps: StampIndex,
}

impl HeldRows {
    /// Those of no entities. It takes no memory.
    pub fn new(alloc: Global) -> HeldRows
        ensures pairs { result.pairs ≡ [] }
        ensures stamps { result.stamps ≡ [] }
    {
        HeldRows {
            pairs: PairIndex::new(alloc),
            stamps: StampIndex::new(alloc),
        }
    }

    /// An entity comes, goes or is another: its rows and timestamps take the place of those that it had, and the ids of rows that
    /// came or went are put among `ids`. Rows and timestamps that it had and has are left where they are. After want of memory they
    /// are gone.
    pub fn update(
        self,
        alloc: Global,
        key: &EntityKey,
        old: Option<&Entity>,
        new: Option<&Entity>,
        ids: &mut ChangedIds,
    ) -> Result<HeldRows, AllocError>
        ensures updated { IfOk result (IsUpdated key.now (option_map entity_value (option_copied old.entry)) (option_map entity_value (option_copied new.entry)) self) }
        ensures noted { OnOk result (AreNoted key.now (option_map entity_value (option_copied old.entry)) (option_map entity_value (option_copied new.entry)) ids.old ids.new) }
    {
        ids.note(alloc, old, new)?;
        let HeldRows { pairs, stamps } = self;
        let pairs = update_rows(alloc, pairs, key, old, new)?;
        let stamps = update_stamps(stamps, key, old, new)?;
        Ok(HeldRows { pairs, stamps })
    }
}

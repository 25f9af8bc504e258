//! The ids by which an entity's trip update and vehicle position are paired.
ghost use Rattle.std.specs.Prelude.{◌≡◌, ℕ, List, IfOk, option_copied, option_map};
ghost use Rattle.rt_wire.specs.Fields.{WireField};
ghost use Rattle.feed_values.specs.Snapshot.{entity_of};
ghost use Rattle.rule_table.specs.Judged.{update_of};
ghost use Rattle.rule_table.specs.Pairs.{of_update, of_vehicle, vehicle_of};
ghost use Rattle.snapshot_keys.specs.Ids.{AreLast, given_ids, ids_at};

use crate::slot_ids::{EntityIds, SlotIds};
use std::alloc::AllocError;
use std::str;

/// The ids by which a trip update or a vehicle position is paired.
#[derive(Clone, Copy)]
pub(crate) struct ReadIds<'a> {
    pub trip: Option<&'a str>,
    pub vehicle: Option<&'a str>,
}

/// Those of both of an entity, each None where it has none.
#[derive(Clone, Copy)]
pub(crate) struct BothIds<'a> {
    pub update: Option<ReadIds<'a>>,
    pub vehicle: Option<ReadIds<'a>>,
}

// The text of bytes that may be given. Where they aren't UTF-8, which no accepted snapshot has, this and all that calls it answer
// want of memory.
fn text_of<'a>(bytes: Option<&'a [u8]>) -> Result<Option<&'a str>, AllocError>
    ensures { IfOk result (λ text. option_copied text ≡ option_copied bytes.entry) }
{
    let Some(bytes) = bytes else {
        return Ok(None);
    };
    let Ok(text) = str::from_utf8(bytes) else {
        return Err(AllocError);
    };
    Ok(Some(text))
}

// The ids of what a slot holds, where it holds anything.
fn texts_of<'a>(found: SlotIds<'a>) -> Result<Option<ReadIds<'a>>, AllocError>
    ensures { IfOk result (λ ids. (slot inside : ℕ) (l : List WireField) → AreLast found.entry slot inside l → option_map given_ids ids ≡ ids_at slot inside l) }
{
    let trip = text_of(found.trip)?;
    let vehicle = text_of(found.vehicle)?;
    match found.payload {
        None => Ok(None),
        Some(_) => Ok(Some(ReadIds { trip, vehicle })),
    }
}

/// The ids of the trip update and of the vehicle position of an entity, by its bytes.
pub(crate) fn both_ids<'a>(entity: &'a [u8]) -> Result<BothIds<'a>, AllocError>
    ensures update { IfOk result (λ ids. option_map given_ids ids.update ≡ option_map of_update (update_of (entity_of entity.now))) }
    ensures vehicle { IfOk result (λ ids. option_map given_ids ids.vehicle ≡ option_map of_vehicle (vehicle_of (entity_of entity.now))) }
{
    let found = EntityIds::at(entity);
    Ok(BothIds {
        update: texts_of(found.update)?,
        vehicle: texts_of(found.vehicle)?,
    })
}

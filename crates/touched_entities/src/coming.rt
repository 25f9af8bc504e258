//! What comes in with a snapshot, decoded.
ghost use Rattle.std.specs.Prelude.{◌≡◌, ◌+◌, ◌<◌, ◌≤◌, Some, IfOk, OnOk, length, map, slice_get, option_map};
ghost use Rattle.feed_values.specs.Snapshot.{entity_of, entity_payloads};
ghost use Rattle.feed_values.specs.Views.{entity_value};
ghost use Rattle.rule_table.specs.Groups.{Each};
ghost use Rattle.rule_history.specs.History.{entities_in};
ghost use Rattle.rule_history.specs.Answered.{payload_under};
ghost use Rattle.entity_index.specs.Laws.{AreThere};

use entity_index::{Changes, Incoming, Parts};
use feed_codec::decode_entity;
use feed_stream::Kept;
use feed_values::Items;
use rt_outside::Steps;
use rule_table::EntityKey;
use std::alloc::{AllocError, Global};
use std::sync::ledger::Ledger;

/// An entity of a snapshot by its place, with empty lists.
fn decode_one<D: Ledger>(
    alloc: Global,
    kept: &Kept,
    place: usize,
    key: &EntityKey,
    decodes: &mut Steps<D>,
) -> Result<Incoming, AllocError>
    requires { place < length (entity_payloads kept.now) }
    ensures key { IfOk result (λ one. one.key ≡ key.now) }
    ensures value { IfOk result (λ one. Some (entity_value one.entity) ≡ option_map entity_of (slice_get (entity_payloads kept.now) place)) }
    ensures ticked { OnOk result (decodes.new ≡ decodes.old + 1) }
    ensures most { decodes.new ≤ decodes.old + 1 }
{
    let key = key.clone()?;
    let entity = decode_entity(alloc, kept.entity(place), decodes)?;
    Ok(Incoming {
        key,
        entity,
        parts: Parts::new(alloc),
    })
}

/// The entities of a snapshot that are new or have other bytes, decoded and without lists. It ticks once for each; after want of memory it has
/// ticked at most that often.
pub fn decode_fresh<D: Ledger>(
    alloc: Global,
    feed: u8,
    kept: &Kept,
    changes: &Changes,
    decodes: &mut Steps<D>,
) -> Result<Items<Incoming>, AllocError>
    requires { AreThere feed kept.now changes.now.fresh changes.now.keys }
    ensures keys { IfOk result (λ came. map (λ c. c.key) came ≡ changes.now.keys) }
    ensures values { IfOk result (Each (λ c. Some (entity_value c.entity) ≡ option_map entity_of (payload_under c.key (entities_in feed kept.now)))) }
    ensures ticked { OnOk result (decodes.new ≡ decodes.old + length changes.now.fresh) }
    ensures most { decodes.new ≤ decodes.old + length changes.now.fresh }
{
    let mut came = Items::new(alloc);
    let places = changes.fresh.as_slice();
    let keys = changes.keys.as_slice();
    for number in 0..places.len() {
        let place = places[number] as usize;
        let key = &keys[number];
        came.push(decode_one(alloc, kept, place, key, decodes)?)?;
    }
    Ok(came)
}

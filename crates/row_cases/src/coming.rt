//! What comes in with a snapshot.
ghost use Rattle.std.specs.Prelude.{◌≡◌, ◌<◌, Some, IfOk, length, map, slice_get, option_map};
ghost use Rattle.feed_values.specs.Snapshot.{entity_of, entity_payloads};
ghost use Rattle.feed_values.specs.Views.{entity_value};
ghost use Rattle.rule_table.specs.Groups.{Each};
ghost use Rattle.rule_history.specs.History.{entities_in};
ghost use Rattle.rule_history.specs.Answered.{payload_under};
ghost use Rattle.entity_index.specs.Laws.{AreThere};

use entity_index::{Changes, Incoming, Parts};
use feed_codec::decode_entity;
use feed_stream::Kept;
use feed_values::{Entity, Items};
use message_rules::MessageGroup;
use rt_outside::Steps;
use rule_clear::LocalRule;
use rule_table::{EntityKey, FindingList};
use standing_walks::Standing;
use std::alloc::{AllocError, Global};
use std::sync::ledger::Ledger;
use timetable::Timetable;

/// What the rules within one message find at an entity, standing since a snapshot.
pub fn standings<L: Ledger>(
    alloc: Global,
    table: &Timetable,
    key: &EntityKey,
    entity: &Entity,
    since: u64,
    steps: &mut Steps<L>,
) -> Result<Items<Standing>, AllocError> {
    let mut found = FindingList::new(alloc);
    MessageGroup::new().judge(alloc, table, key, entity, &mut found, steps)?;
    let mut list = Items::new(alloc);
    for place in 0..found.len() {
        let finding = found.get(place).clone(alloc)?;
        list.push(Standing::new(alloc, finding, since)?)?;
    }
    Ok(list)
}

// An entity of a snapshot by its place, with what is found there in the first list.
fn one<L: Ledger>(
    alloc: Global,
    table: &Timetable,
    kept: &Kept,
    place: usize,
    key: &EntityKey,
    since: u64,
    steps: &mut Steps<L>,
) -> Result<Incoming, AllocError>
    requires { place < length (entity_payloads kept.now) }
    ensures key { IfOk result (λ one. one.key ≡ key.now) }
    ensures value { IfOk result (λ one. Some (entity_value one.entity) ≡ option_map entity_of (slice_get (entity_payloads kept.now) place)) }
{
    let entity = decode_entity(alloc, kept.entity(place), steps)?;
    let mut parts = Parts::new(alloc);
    parts.set(0, standings(alloc, table, key, &entity, since, steps)?);
    Ok(Incoming {
        key: key.clone()?,
        entity,
        parts,
    })
}

/// What comes in with a snapshot of a feed: what it makes new or other, decoded, with what is found there in the first list.
pub fn coming<L: Ledger>(
    alloc: Global,
    table: &Timetable,
    feed: u8,
    kept: &Kept,
    changes: &Changes,
    since: u64,
    steps: &mut Steps<L>,
) -> Result<Items<Incoming>, AllocError>
    requires { AreThere feed kept.now changes.now.fresh changes.now.keys }
    ensures keys { IfOk result (λ came. map (λ c. c.key) came ≡ changes.now.keys) }
    ensures values { IfOk result (Each (λ c. Some (entity_value c.entity) ≡ option_map entity_of (payload_under c.key (entities_in feed kept.now)))) }
{
    let mut came = Items::new(alloc);
    let places = changes.fresh.as_slice();
    let keys = changes.keys.as_slice();
    for number in 0..places.len() {
        let place = places[number] as usize;
        let key = &keys[number];
        came.push(one(alloc, table, kept, place, key, since, steps)?)?;
    }
    Ok(came)
}

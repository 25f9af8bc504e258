//! The entities of a kept snapshot, as they are written in the union.
ghost use Rattle.std.specs.Prelude.{◌≡◌, ◌++◌, Err, IfOk, OnOk, IfErr, map, length, ◌<◌, ◌≤◌};
ghost use Rattle.feed_values.specs.Accepted.{snapshot_limit};
ghost use Rattle.feed_values.specs.Messages.{entity};
ghost use Rattle.feed_values.specs.Snapshot.{entity_of, snapshot_value};
ghost use Rattle.feed_values.specs.Views.{entity_value};
ghost use Rattle.feed_values.specs.WellFormed.{IsWellFormed};
ghost use Rattle.feed_codec.specs.Refusal.{entity_fault};
ghost use Rattle.feed_merge.specs.Spelled.{entities_spelled, entity_spelled};
ghost use Rattle.feed_merge.specs.Union.{entities_in, prefixed, renamed};
ghost use Rattle.feed_merge.specs.declared.merge_fault.MergeFault.TheVariants.{TooLarge};

use crate::merge_fault::MergeFault;
use crate::renaming::{prefix, rename};
use feed_codec::{SNAPSHOT_LIMIT, decode_entity};
use feed_stream::Kept;
use feed_values::Entity;
use rt_outside::Steps;
use std::alloc::{AllocError, Global};
use std::marker::Brand;
use std::sync::ledger::{Blank, Ledger};

/// Whether a snapshot may have so many bytes.
pub fn within_limit(bytes: &[u8]) -> Result<(), MergeFault>
    ensures ok { OnOk result (length bytes.now ≤ snapshot_limit) }
    ensures err { IfErr result (λ e. (e ≡ TooLarge) × (snapshot_limit < length bytes.now)) }
{
    if bytes.len() > SNAPSHOT_LIMIT {
        return Err(MergeFault::TooLarge);
    }
    Ok(())
}

// The entity that a payload means. What decoding it counts is of no account here.
fn decoded<L: Ledger>(alloc: Global, payload: &[u8], blank: Blank) -> Result<Entity, AllocError>
    requires passes { entity_fault payload.now ≡ None }
    requires name { blank.name ≡ L.name }
    requires parts { blank.parts ≡ L.parts }
    requires one { blank.parts ≡ 1 }
    ensures value { IfOk result (λ held. entity_value held ≡ entity_of payload.now) }
    ensures well_formed { IfOk result (λ held. IsWellFormed entity (entity_value held)) }
{
    decode_entity(alloc, payload, &mut Steps::<L>::new(blank))
}

// Appends an entity as it is written in a snapshot, with this before its id.
fn put_entity(
    alloc: Global,
    prefix: &str,
    mut held: Entity,
    bytes: &mut Vec<u8>,
) -> Result<(), AllocError>
    requires { IsWellFormed entity (entity_value held) }
    ensures { OnOk result (bytes.new.items ≡ bytes.old.items ++ entity_spelled (renamed prefix.now (entity_value held))) }
{
    rename(alloc, prefix, &mut held)?;
    feed_codec::put_entity(alloc, &held, bytes)
}

/// Appends the entities of the feed of this number, each under its id in the union, as long as all are what a snapshot may have.
/// One at a time is held decoded.
pub fn put_entities(
    alloc: Global,
    number: usize,
    feed: &Kept,
    bytes: &mut Vec<u8>,
) -> Result<(), MergeFault>
    ensures ok { OnOk result (bytes.new.items ≡ bytes.old.items ++ entities_spelled (map (prefixed number) (entities_in (snapshot_value feed.now)))) }
    ensures too_large { result ≡ Err TooLarge
        → snapshot_limit < length (bytes.old.items ++ entities_spelled (map (prefixed number) (entities_in (snapshot_value feed.now)))) }
{
    let prefix = prefix(alloc, number)?;
    for place in 0..feed.len() {
        let held = decoded::<Brand>(alloc, feed.entity(place), Blank::new(1))?;
        put_entity(alloc, prefix.as_str(), held, bytes)?;
        within_limit(bytes)?;
    }
    Ok(())
}

//! Vehicle positions that come, and the keys that they touch.
ghost use Rattle.std.specs.Prelude.{◌≡◌};

use crate::{key, scattered, share, text};
use feed_codec::{check_entity, decode_entity};
use feed_values::{Entity, Text};
use row_changes::{ChangedIds, HeldRows, Kinds, paired_keys};
use rt_outside::Steps;
use std::alloc::{AllocError, Global};
use std::marker::Brand;
use std::sync::ledger::{Blank, Ledger};

/// A field with a length below 128.
pub fn put_field(out: &mut Vec<u8>, tag: u8, bytes: &[u8]) -> Result<(), AllocError> {
    out.push(tag)?;
    out.push(u8::try_from(bytes.len()).unwrap_or(0))?;
    out.extend_from_slice(bytes)?;
    Ok(())
}

// A message with one text in its first field.
fn with_id(alloc: Global, id: &Text) -> Result<Vec<u8>, AllocError> {
    let mut bytes = Vec::new(alloc);
    put_field(&mut bytes, 0x0A, id.as_str().as_bytes())?;
    Ok(bytes)
}

/// The bytes of an entity whose vehicle position gives a trip and a vehicle.
pub fn bytes_of(alloc: Global, number: u32, trips: u32) -> Result<Vec<u8>, AllocError> {
    let part = share(scattered(number), trips);
    let trip = with_id(alloc, &text(alloc, 't', part)?)?;
    let vehicle = with_id(alloc, &text(alloc, 'v', scattered(number))?)?;
    let mut position = Vec::new(alloc);
    put_field(&mut position, 0x0A, trip.as_slice())?;
    put_field(&mut position, 0x42, vehicle.as_slice())?;
    let mut entity = with_id(alloc, &text(alloc, 'e', scattered(number))?)?;
    put_field(&mut entity, 0x22, position.as_slice())?;
    Ok(entity)
}

fn decoded<L: Ledger>(
    alloc: Global,
    bytes: &[u8],
    blank: Blank,
) -> Result<Option<Entity>, AllocError>
    requires name { blank.name ≡ L.name }
    requires parts { blank.parts ≡ L.parts }
    requires one { blank.parts ≡ 1 }
{
    let mut steps: Steps<L> = Steps::new(blank);
    match check_entity(bytes, 0) {
        Ok(()) => Ok(Some(decode_entity(alloc, bytes, &mut steps)?)),
        Err(_) => Ok(None),
    }
}

fn entity(alloc: Global, number: u32, trips: u32) -> Result<Option<Entity>, AllocError> {
    let bytes = bytes_of(alloc, number, trips)?;
    decoded::<Brand>(alloc, bytes.as_slice(), Blank::new(1))
}

/// Decodes vehicle positions and lets them go.
pub fn come(alloc: Global, rows: u32, trips: u32) -> Result<u64, AllocError> {
    let mut count = 0u64;
    for number in 0..rows {
        if entity(alloc, number, trips)?.is_some() {
            count = count.wrapping_add(1);
        }
    }
    Ok(count)
}

/// How many keys are touched where they come as one snapshot.
pub fn touched(alloc: Global, rows: u32, trips: u32) -> Result<u64, AllocError> {
    let mut held = HeldRows::new(alloc);
    let mut ids = ChangedIds::new(alloc);
    let kinds = Kinds::of(&held.pairs);
    for number in 0..rows {
        let entity = entity(alloc, number, trips)?;
        held = held.update(alloc, &key(alloc, number)?, None, entity.as_ref(), &mut ids)?;
    }
    let keys = paired_keys(alloc, &held.pairs, &ids, kinds)?;
    Ok(keys.as_slice().len() as u64)
}

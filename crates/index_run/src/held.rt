//! A snapshot that is held, and one that comes.
ghost use Rattle.std.specs.Prelude.{◌≡◌};

use crate::touch::{bytes_of, put_field};
use entity_index::{EntityIndex, fresh_are_there};
use feed_stream::{Kept, Splitter};
use rt_outside::Steps;
use std::alloc::{AllocError, Global};
use std::marker::Brand;
use std::sync::ledger::{Blank, Ledger};
use touched_entities::{decode_fresh, exchange};

// An entity of some 600 bytes: a vehicle position, and fields that no schema has.
fn put_entity(out: &mut Vec<u8>, alloc: Global, number: u32, rows: u32) -> Result<(), AllocError> {
    let mut bytes = bytes_of(alloc, number, rows)?;
    for _ in 0..5 {
        put_field(&mut bytes, 0x7A, &[b'x'; 110])?;
    }
    out.push(0x12)?;
    let length = bytes.len();
    out.push((length % 128) as u8 + 0x80)?;
    out.push(u8::try_from(length / 128).unwrap_or(0))?;
    out.extend_from_slice(bytes.as_slice())?;
    Ok(())
}

// A snapshot of some vehicle positions, in their order or the other way round.
fn snapshot(alloc: Global, rows: u32, turned: bool) -> Result<Option<Kept>, AllocError> {
    let mut bytes = Vec::new(alloc);
    put_field(&mut bytes, 0x0A, &[0x0A, 3, b'2', b'.', b'0'])?;
    for place in 0..rows {
        let number = if turned {
            rows.wrapping_sub(place)
        } else {
            place.wrapping_add(1)
        };
        put_entity(&mut bytes, alloc, number, rows)?;
    }
    match Splitter::new(alloc).feed(bytes.as_slice())?.finish() {
        Ok(kept) => Ok(Some(kept)),
        Err(_) => Ok(None),
    }
}

// What is held, and how many entities of the snapshot were new or other.
#[derive(Drop)]
struct Taken {
    index: EntityIndex,
    fresh: u64,
}

// Takes a snapshot in: what is new in it is decoded.
fn take_in<L: Ledger>(
    alloc: Global,
    index: EntityIndex,
    kept: Kept,
    blank: Blank,
) -> Result<Taken, AllocError>
    requires name { blank.name ≡ L.name }
    requires parts { blank.parts ≡ L.parts }
    requires one { blank.parts ≡ 1 }
{
    let mut steps: Steps<L> = Steps::new(blank);
    let changes = index.changes(alloc, 0, &kept)?;
    fresh_are_there();
    let coming = decode_fresh(alloc, 0, &kept, &changes, &mut steps)?;
    let fresh = coming.as_slice().len() as u64;
    let next = exchange(alloc, index, 0, kept, coming)?;
    Ok(Taken { index: next, fresh })
}

fn take_if(alloc: Global, index: EntityIndex, kept: Option<Kept>) -> Result<Taken, AllocError> {
    match kept {
        None => Ok(Taken { index, fresh: 0 }),
        Some(kept) => take_in::<Brand>(alloc, index, kept, Blank::new(1)),
    }
}

/// How many entities are new when a snapshot comes, and then when it comes again some times, in the same order or the other way round each time.
pub fn held(alloc: Global, rows: u32, times: u32, turned: bool) -> Result<u64, AllocError> {
    let mut count = 0u64;
    let mut index = EntityIndex::new(alloc);
    for time in 0..times {
        let other = turned && time % 2 == 1;
        let kept = snapshot(alloc, rows, other)?;
        let taken = take_if(alloc, index, kept)?;
        index = taken.index;
        count = count.wrapping_add(taken.fresh);
    }
    Ok(count)
}

/// The same snapshots, split alone.
pub fn split(alloc: Global, rows: u32, times: u32) -> Result<u64, AllocError> {
    let mut count = 0u64;
    for _ in 0..times {
        if let Some(kept) = snapshot(alloc, rows, false)? {
            count = count.wrapping_add(kept.len() as u64);
        }
    }
    Ok(count)
}

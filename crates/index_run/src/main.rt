//! `index_run WORK ROWS TRIPS`: puts pairing rows or timestamps into an index, so that `bench/indexes.py` can measure it.
//!
//! WORK is `make` (rows are made and let go), `add`, `take` (added and taken out again), `ask` (six answers for each row),
//! `name` (the keys that each row names), `stamp` or `unstamp`. ROWS is how many rows there are, and TRIPS over how many trips
//! and vehicles they spread. With `pass` rows whose ids never come again are put in and taken out, ROWS of them there at a time and TRIPS times
//! as many in all. `come` and `touch` are of entities (`touch`): vehicle positions are decoded, or held too and the keys found that they
//! touch. With `again` a snapshot of ROWS entities comes TRIPS times (`held`), with `turned` every second time with its entities the other
//! way round, and with `split` it is only split. It prints a count of what it did.
#![tactic(auto)]

mod held;
mod touch;

use crate::held::{held, split};
use crate::touch::{come, touched};
use feed_values::Text;
use history_rules::StampIndex;
use pairing_rules::{PairIndex, PairRow};
use rule_table::{EntityId, EntityKey, Kind, PairView};
use std::alloc::{AllocError, Global};
use std::{env, io};

/// A text of a letter and a number.
pub fn text(alloc: Global, letter: char, number: u32) -> Result<Text, AllocError> {
    let spelled = format!(in alloc; "{letter}{number}")?;
    Text::of(alloc, spelled.as_str())
}

fn id(alloc: Global, number: u32) -> Result<EntityId, AllocError> {
    EntityId::of(alloc, text(alloc, 'e', number)?.as_str())
}

fn kind_of(number: u32) -> Kind {
    if number.is_multiple_of(2) {
        Kind::TripUpdate
    } else {
        Kind::Vehicle
    }
}

/// Neighbouring numbers lie far apart, as ids do in a feed.
pub fn scattered(number: u32) -> u32 {
    number.wrapping_mul(2654435761)
}

/// The part that a number falls to.
pub fn share(number: u32, parts: u32) -> u32 {
    match number.checked_rem(parts) {
        Some(rest) => rest,
        None => 0,
    }
}

fn row(alloc: Global, number: u32, trips: u32) -> Result<PairRow, AllocError> {
    let place = scattered(number);
    Ok(PairRow {
        kind: kind_of(number),
        feed: (number % 16) as u8,
        id: id(alloc, place)?,
        occurrence: 0,
        trip: Some(text(alloc, 't', share(place, trips))?),
        vehicle: Some(text(alloc, 'v', share(place, trips))?),
    })
}

/// The key of an entity by number.
pub fn key(alloc: Global, number: u32) -> Result<EntityKey, AllocError> {
    Ok(EntityKey {
        feed: (number % 16) as u8,
        id: id(alloc, scattered(number))?,
        occurrence: 0,
    })
}

fn made(alloc: Global, rows: u32, trips: u32) -> Result<u64, AllocError> {
    let mut count = 0u64;
    for number in 0..rows {
        let row = row(alloc, number, trips)?;
        if row.kind == Kind::Vehicle {
            count = count.wrapping_add(1);
        }
    }
    Ok(count)
}

fn filled(alloc: Global, rows: u32, trips: u32) -> Result<PairIndex, AllocError> {
    let mut index = PairIndex::new(alloc);
    for number in 0..rows {
        index = index.add(row(alloc, number, trips)?)?;
    }
    Ok(index)
}

fn emptied(
    alloc: Global,
    index: PairIndex,
    rows: u32,
    trips: u32,
) -> Result<PairIndex, AllocError> {
    let mut index = index;
    for number in 0..rows {
        index.take_out(&row(alloc, number, trips)?);
    }
    Ok(index)
}

// Takes out the row that was put in some rows before.
fn let_go(
    alloc: Global,
    index: &mut PairIndex,
    number: u32,
    before: u32,
) -> Result<(), AllocError> {
    match number.checked_sub(before) {
        Some(old) => {
            index.take_out(&row(alloc, old, u32::MAX)?);
            Ok(())
        }
        None => Ok(()),
    }
}

fn passed(alloc: Global, rows: u32, times: u32) -> Result<PairIndex, AllocError> {
    let mut index = PairIndex::new(alloc);
    for number in 0..rows.saturating_mul(times) {
        let_go(alloc, &mut index, number, rows)?;
        index = index.add(row(alloc, number, u32::MAX)?)?;
    }
    Ok(index)
}

fn answers(alloc: Global, index: &PairIndex, number: u32, trips: u32) -> Result<u64, AllocError> {
    let row = row(alloc, number, trips)?;
    let trip = text(alloc, 't', share(number, trips))?;
    let vehicle = text(alloc, 'v', share(number, trips))?;
    let mut yes = 0u64;
    if index.has_trip(row.kind, trip.as_str()) {
        yes = yes.wrapping_add(1);
    }
    if index.has_vehicle(row.kind, vehicle.as_str()) {
        yes = yes.wrapping_add(1);
    }
    if index.has_pair(row.kind, trip.as_str(), vehicle.as_str()) {
        yes = yes.wrapping_add(1);
    }
    if index.first_vehicle(row.kind, trip.as_str()).is_some() {
        yes = yes.wrapping_add(1);
    }
    if index.first_key(row.feed, vehicle.as_str()).is_some() {
        yes = yes.wrapping_add(1);
    }
    if index.any_row(row.kind) {
        yes = yes.wrapping_add(1);
    }
    Ok(yes)
}

fn asked(alloc: Global, index: &PairIndex, rows: u32, trips: u32) -> Result<u64, AllocError> {
    let mut count = 0u64;
    for number in 0..rows {
        count = count.wrapping_add(answers(alloc, index, number, trips)?);
    }
    Ok(count)
}

fn named(alloc: Global, index: &PairIndex, rows: u32, trips: u32) -> Result<u64, AllocError> {
    let mut count = 0u64;
    for number in 0..rows {
        let keys = index.naming(alloc, &row(alloc, number, trips)?)?;
        count = count.wrapping_add(keys.as_slice().len() as u64);
    }
    Ok(count)
}

fn stamped(alloc: Global, rows: u32, stamps: u32) -> Result<StampIndex, AllocError> {
    let mut index = StampIndex::new(alloc);
    for number in 0..rows {
        let stamp = u64::from(share(scattered(number), stamps));
        index = index.add((number % 16) as u8, stamp, key(alloc, number)?)?;
    }
    Ok(index)
}

fn unstamped(
    alloc: Global,
    index: StampIndex,
    rows: u32,
    stamps: u32,
) -> Result<StampIndex, AllocError> {
    let mut index = index;
    for number in 0..rows {
        let stamp = u64::from(share(scattered(number), stamps));
        index.take_out((number % 16) as u8, stamp, &key(alloc, number)?);
    }
    Ok(index)
}

fn left(index: &PairIndex) -> u64 {
    if index.any_row(Kind::Vehicle) { 1 } else { 0 }
}

fn above(alloc: Global, index: &StampIndex) -> Result<u64, AllocError> {
    let keys = index.above(alloc, 1, 0)?;
    Ok(keys.as_slice().len() as u64)
}

fn done(alloc: Global, work: &str, rows: u32, trips: u32) -> Result<u64, AllocError> {
    match work {
        "make" => made(alloc, rows, trips),
        "add" => Ok(left(&filled(alloc, rows, trips)?)),
        "take" => {
            let index = filled(alloc, rows, trips)?;
            Ok(left(&emptied(alloc, index, rows, trips)?))
        }
        "ask" => asked(alloc, &filled(alloc, rows, trips)?, rows, trips),
        "name" => named(alloc, &filled(alloc, rows, trips)?, rows, trips),
        "pass" => Ok(left(&passed(alloc, rows, trips)?)),
        "come" => come(alloc, rows, trips),
        "touch" => touched(alloc, rows, trips),
        "split" => split(alloc, rows, trips),
        "again" => held(alloc, rows, trips, false),
        "turned" => held(alloc, rows, trips, true),
        "stamp" => above(alloc, &stamped(alloc, rows, trips)?),
        "unstamp" => {
            let index = stamped(alloc, rows, trips)?;
            above(alloc, &unstamped(alloc, index, rows, trips)?)
        }
        _ => Ok(0),
    }
}

fn number_of(words: &[String], place: usize) -> u32 {
    match words.get(place) {
        Some(word) => word.parse().unwrap_or(0),
        None => 0,
    }
}

fn work_of(words: &[String]) -> &str {
    match words.first() {
        Some(word) => word.as_str(),
        None => "",
    }
}

fn main(rt: HostRuntime) -> io::Result<()> {
    let mut words = Vec::new(rt.alloc());
    for word in env::args(&rt)?.skip(1) {
        words.push(word)?;
    }
    let rows = number_of(&words, 1);
    let trips = number_of(&words, 2);
    let count = done(rt.alloc(), work_of(&words), rows, trips)?;
    println!(rt; "{count}")?;
    Ok(())
}

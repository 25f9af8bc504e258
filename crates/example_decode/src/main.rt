//! Counts what a snapshot holds: `example_decode FILE`.
//!
//! [`read_whole`] gives a file's bytes and [`decode`] what they mean, or where they go wrong first. docs/library.md goes through it.
#![tactic(auto)]

use feed_codec::decode;
use feed_values::Entity;
use rt_outside::{RealFiles, read_whole};
use std::{env, io};

/// The most bytes that a snapshot may have.
const LIMIT: usize = 67_108_864;

fn tell(rt: &HostRuntime, entities: &[Entity]) -> io::Result<()> {
    let (mut updates, mut vehicles, mut alerts) = (0u64, 0u64, 0u64);
    for entity in entities {
        updates = updates.saturating_add(entity.trip_update.is_some() as u64);
        vehicles = vehicles.saturating_add(entity.vehicle.is_some() as u64);
        alerts = alerts.saturating_add(entity.alert.is_some() as u64);
    }
    println!(rt; "{updates} trip updates, {vehicles} vehicle positions, {alerts} alerts")
}

fn main(rt: HostRuntime) -> io::Result<()> {
    for name in env::args(&rt)?.skip(1) {
        match read_whole(rt.alloc(), &mut RealFiles::new(&rt), name.as_str(), LIMIT) {
            Ok(bytes) => match decode(rt.alloc(), &bytes) {
                Ok(message) => tell(&rt, message.entity.as_slice())?,
                Err(fault) => println!(&rt; "{name}: {fault}")?,
            },
            Err(end) => println!(&rt; "{name}: {end}")?,
        }
    }
    Ok(())
}

//! Predicts the stops of each trip update: `example_predict FILE..`, with the timetable in this folder. docs/library.md goes through it.
#![tactic(auto)]

use feed_codec::decode;
use feed_values::{FeedMessage, TripUpdate, given_text};
use propagation::Resolver;
use rt_outside::RealFiles;
use std::{env, fs, io};
use timetable::Timetable;
use trip_calendar::Zone;

const MOMENT: u64 = 1_700_034_600; // in POSIX seconds

fn tell(rt: &HostRuntime, resolver: &Resolver<'_>, update: &TripUpdate) -> io::Result<()> {
    if update.stop_time_update.as_slice().len() > u32::MAX as usize {
        return Ok(()); // more than one trip can have
    }
    for row in resolver.predict(rt.alloc(), update, MOMENT)?.rows() {
        let stop = given_text(&row.stop_id).unwrap_or("");
        println!(rt;
            "{stop} {:?} {:?} {:?}",
            row.event, row.predicted, row.state
        )?;
    }
    Ok(())
}

fn tell_all(rt: &HostRuntime, resolver: &Resolver<'_>, message: &FeedMessage) -> io::Result<()> {
    for entity in message.entity.as_slice() {
        if let Some(update) = &entity.trip_update {
            tell(rt, resolver, update)?;
        }
    }
    Ok(())
}

fn main(rt: HostRuntime) -> io::Result<()> {
    let table = Timetable::load(rt.alloc(), &mut RealFiles::new(&rt), ".");
    let (Ok(table), Ok(zone)) = (table, Zone::from_rule(rt.alloc(), "UTC0")) else {
        return println!(&rt; "there is no timetable");
    };
    for name in env::args(&rt)?.skip(1) {
        match decode(rt.alloc(), &fs::read(&rt, name.as_str())?) {
            Ok(message) => tell_all(&rt, &Resolver::new(&table, &zone), &message)?,
            Err(fault) => println!(&rt; "{name}: {fault}")?,
        }
    }
    Ok(())
}

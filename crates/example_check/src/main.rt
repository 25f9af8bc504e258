//! Judges snapshots, each by itself: `example_check FILE..`, taken at `MOMENT`.
//!
//! An [`Engine`] stands for a history of snapshots, and its findings are exactly those of the rules there. It counts its work in
//! [`Steps`]; a caller that wants no counts makes two and forgets them. docs/library.md goes through it.
#![tactic(auto)]

ghost use Rattle.std.specs.Prelude.{◌≡◌};

use feed_codec::CodecFault;
use feed_stream::Splitter;
use follow_engine::Engine;
use rt_outside::Steps;
use std::marker::Brand;
use std::sync::ledger::{Blank, Ledger};
use std::{env, fs, io};
use timetable::Timetable;

const MOMENT: u64 = 1_700_034_600; // in POSIX seconds

type Judged = Result<Engine, CodecFault>;

// The engine with this snapshot.
fn judged<D: Ledger, T: Ledger>(rt: &HostRuntime, bytes: &[u8], d: Blank, t: Blank) -> Judged
    requires decodes { (d.name ≡ D.name) × (d.parts ≡ D.parts) × (d.parts ≡ 1) }
    requires tests { (t.name ≡ T.name) × (t.parts ≡ T.parts) × (t.parts ≡ 1) }
{
    let kept = Splitter::new(rt.alloc()).feed(bytes)?.finish()?;
    let engine = Engine::new(rt.alloc(), Timetable::absent(rt.alloc()));
    if engine.applied() > 0 {
        return Ok(engine); // never, since it is new
    }
    let (mut decodes, mut tests) = (Steps::<D>::new(d), Steps::<T>::new(t));
    Ok(engine.apply(0, MOMENT, kept, &mut decodes, &mut tests)?.0)
}

fn main(rt: HostRuntime) -> io::Result<()> {
    for name in env::args(&rt)?.skip(1) {
        let bytes = fs::read(&rt, name.as_str())?;
        match judged::<Brand, Brand>(&rt, &bytes, Blank::new(1), Blank::new(1)) {
            Ok(engine) => {
                for (finding, _) in engine.findings() {
                    println!(&rt; "{name}: {}", finding.rule().name())?;
                }
            }
            Err(fault) => println!(&rt; "{name}: {fault}")?,
        }
    }
    Ok(())
}

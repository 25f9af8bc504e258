//! Asks of an engine.
ghost use Rattle.std.specs.Prelude.{◌≡◌};

use crate::told::{say_delta, say_exchange, say_findings};
use cases::{number, say, say_some, word};
use feed_stream::{Kept, Splitter};
use follow_engine::{Delta, Engine};
use rt_outside::{QuietFiles, Steps};
use std::alloc::{AllocError, Global};
use std::marker::Brand;
use std::sync::ledger::{Blank, Ledger};
use timetable::Timetable;
use timetable_exchange::{Exchange, exchange};

/// The files of a timetable and an engine, both empty as a case begins. The engine is boxed, so that each way out of a function
/// here drops one box.
#[derive(Drop)]
pub struct EngineAsks {
    alloc: Global,
    files: QuietFiles,
    engine: Option<Box<Engine>>,
}

// A snapshot, of the feed and at the moment of `came FEED MOMENT`.
#[derive(Drop)]
struct Snapshot {
    feed: u8,
    moment: u64,
    kept: Kept,
}

fn came(alloc: Global, words: &[String], given: &[u8]) -> Result<Option<Snapshot>, AllocError> {
    let splitter = Splitter::new(alloc).feed(given)?;
    match splitter.finish() {
        Ok(kept) => Ok(Some(Snapshot {
            feed: word(words, 1).parse().unwrap_or(0),
            moment: number(words, 2),
            kept,
        })),
        Err(_) => Ok(None),
    }
}

// The engine after one more snapshot, with what that changed. A feed past 15 isn't tried, and no millionth snapshot.
fn apply<D: Ledger, T: Ledger>(
    alloc: Global,
    engine: Box<Engine>,
    came: Snapshot,
    decodes: Blank,
    tests: Blank,
) -> Result<(Box<Engine>, Option<Delta>), AllocError>
    requires decodes_name { decodes.name ≡ D.name }
    requires decodes_parts { decodes.parts ≡ D.parts }
    requires decodes_one { decodes.parts ≡ 1 }
    requires tests_name { tests.name ≡ T.name }
    requires tests_parts { tests.parts ≡ T.parts }
    requires tests_one { tests.parts ≡ 1 }
{
    let mut decodes: Steps<D> = Steps::new(decodes);
    let mut tests: Steps<T> = Steps::new(tests);
    let Snapshot { feed, moment, kept } = came;
    if feed > 15 || engine.applied() >= 1_000_000 {
        return Ok((engine, None));
    }
    let (next, delta) = Box::into_inner(engine).apply(
        feed,
        moment,
        kept,
        &mut decodes,
        &mut tests,
    )?;
    Ok((Box::new(alloc, next)?, Some(delta)))
}

// The engine with another timetable, and what that changed.
fn turn<T: Ledger>(
    alloc: Global,
    engine: Box<Engine>,
    table: Timetable,
    tests: Blank,
) -> Result<(Box<Engine>, Exchange), AllocError>
    requires name { tests.name ≡ T.name }
    requires parts { tests.parts ≡ T.parts }
    requires one { tests.parts ≡ 1 }
{
    let mut tests: Steps<T> = Steps::new(tests);
    let (next, changed) = exchange(alloc, Box::into_inner(engine), table, &mut tests)?;
    Ok((Box::new(alloc, next)?, changed))
}

fn boxed(alloc: Global, table: Timetable) -> Result<Box<Engine>, AllocError> {
    Ok(Box::new(alloc, Engine::new(alloc, table))?)
}

impl EngineAsks {
    pub fn new(alloc: Global) -> EngineAsks {
        EngineAsks {
            alloc,
            files: QuietFiles::new(alloc),
            engine: None,
        }
    }

    pub fn begin(&mut self) {
        self.files = QuietFiles::new(self.alloc);
        self.engine = None;
    }

    // The engine is taken out. Where there is none, it is one without a timetable.
    fn engine(&mut self) -> Result<Box<Engine>, AllocError> {
        match self.engine.take() {
            Some(engine) => Ok(engine),
            None => boxed(self.alloc, Timetable::absent(self.alloc)),
        }
    }

    fn load(&mut self, folder: &str, out: &mut Vec<u8>) -> Result<(), AllocError> {
        match Timetable::load(self.alloc, &mut self.files, folder) {
            Ok(table) => {
                self.engine = Some(boxed(self.alloc, table)?);
                Ok(())
            }
            Err(fault) => say(out, format!(in self.alloc; "{fault:?}")?.as_str()),
        }
    }

    // Puts the timetable of other files in the place of the engine's.
    fn turn_to(&mut self, table: Timetable, out: &mut Vec<u8>) -> Result<(), AllocError> {
        let engine = self.engine()?;
        let (engine, changed) = turn::<Brand>(self.alloc, engine, table, Blank::new(1))?;
        self.engine = Some(engine);
        say_exchange(self.alloc, &changed, out)
    }

    fn exchange(&mut self, folder: &str, out: &mut Vec<u8>) -> Result<(), AllocError> {
        match Timetable::load(self.alloc, &mut self.files, folder) {
            Ok(table) => self.turn_to(table, out),
            Err(fault) => say(out, format!(in self.alloc; "{fault:?}")?.as_str()),
        }
    }

    // Follows one snapshot.
    fn come(&mut self, words: &[String], given: &[u8]) -> Result<Option<Delta>, AllocError> {
        let Some(came) = came(self.alloc, words, given)? else {
            return Ok(None);
        };
        let engine = self.engine()?;
        let (engine, delta) = apply::<Brand, Brand>(
            self.alloc,
            engine,
            came,
            Blank::new(1),
            Blank::new(1),
        )?;
        self.engine = Some(engine);
        Ok(delta)
    }

    fn say_came(
        &mut self,
        words: &[String],
        given: &[u8],
        out: &mut Vec<u8>,
    ) -> Result<(), AllocError> {
        match self.come(words, given)? {
            Some(delta) => say_delta(self.alloc, &delta, out),
            None => say(out, "refused"),
        }
    }

    // Follows a snapshot so many times, and says nothing of what that changes.
    fn follow(
        &mut self,
        words: &[String],
        given: &[u8],
        out: &mut Vec<u8>,
    ) -> Result<(), AllocError> {
        for _ in 0..number(words, 3) {
            if self.come(words, given)?.is_none() {
                return say(out, "refused");
            }
        }
        Ok(())
    }

    fn say_found(&mut self, out: &mut Vec<u8>) -> Result<(), AllocError> {
        let engine = self.engine()?;
        let told = say_findings(self.alloc, &engine, out);
        self.engine = Some(engine);
        told
    }

    fn say_applied(&mut self, out: &mut Vec<u8>) -> Result<(), AllocError> {
        let engine = self.engine()?;
        let applied = engine.applied();
        self.engine = Some(engine);
        say_some(self.alloc, out, Some(applied))
    }

    /// Takes `file NAME` with its text below, and `load FOLDER`, which begins an engine with the timetable of these files. Answers
    /// `came FEED MOMENT` with a snapshot's bytes below by what it changed, `exchange FOLDER` by what another timetable changed, `findings` and `applied`.
    /// `follow FEED MOMENT TIMES` is `came` so many times without an answer.
    pub fn answer(
        &mut self,
        words: &[String],
        given: &[u8],
        out: &mut Vec<u8>,
    ) -> Result<bool, AllocError> {
        match word(words, 0) {
            "file" => self.files.add(word(words, 1), given)?,
            "load" => self.load(word(words, 1), out)?,
            "came" => self.say_came(words, given, out)?,
            "follow" => self.follow(words, given, out)?,
            "exchange" => self.exchange(word(words, 1), out)?,
            "findings" => self.say_found(out)?,
            "applied" => self.say_applied(out)?,
            _ => return Ok(false),
        }
        Ok(true)
    }
}

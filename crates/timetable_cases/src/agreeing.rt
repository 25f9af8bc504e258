//! Asks whether two timetables agree for an entity.
ghost use Rattle.std.specs.Prelude.{◌≡◌};

use crate::held::Held;
use cases::{say, say_whether, word};
use feed_codec::{check_entity, decode_entity};
use feed_values::Entity;
use rt_outside::{Files, Steps};
use std::alloc::{AllocError, Global};
use std::marker::Brand;
use std::sync::ledger::{Blank, Ledger};
use timetable::Timetable;
use timetable_agree::{Comparison, agrees};

// The timetable in a folder, boxed, so that each way out of a function drops one box. It is absent where it can't be loaded.
fn table<F: Files + Drop>(
    alloc: Global,
    mut files: F,
    folder: &str,
) -> Result<Box<Timetable>, AllocError> {
    match Timetable::load(alloc, &mut files, folder) {
        Ok(table) => Ok(Box::new(alloc, table)?),
        Err(_) => Ok(Box::new(alloc, Timetable::absent(alloc))?),
    }
}

// Whether two timetables agree for an entity, where all ways to ask it tell the same.
fn say_agreement(
    alloc: Global,
    old: &Timetable,
    new: &Timetable,
    entity: &Entity,
    out: &mut Vec<u8>,
) -> Result<(), AllocError> {
    let told = agrees(old, new, entity);
    let mut comparison = Comparison::new(alloc, old, new);
    let compared = comparison.agrees(alloc, entity)?;
    let remembered = comparison.agrees(alloc, entity)?;
    if compared != told || remembered != told {
        return say(out, "not always the same");
    }
    say_whether(out, told)
}

fn say_of_bytes<L: Ledger>(
    alloc: Global,
    old: &Timetable,
    new: &Timetable,
    bytes: &[u8],
    blank: Blank,
    out: &mut Vec<u8>,
) -> Result<(), AllocError>
    requires name { blank.name ≡ L.name }
    requires parts { blank.parts ≡ L.parts }
    requires one { blank.parts ≡ 1 }
{
    let mut steps: Steps<L> = Steps::new(blank);
    match check_entity(bytes, 0) {
        Ok(()) => {
            let entity = decode_entity(alloc, bytes, &mut steps)?;
            say_agreement(alloc, old, new, &entity, out)
        }
        Err(_) => say(out, "refused"),
    }
}

/// Answers `agree OLD NEW` with an entity's bytes below.
pub fn answer(
    alloc: Global,
    held: &Held,
    words: &[String],
    given: &[u8],
    out: &mut Vec<u8>,
) -> Result<bool, AllocError> {
    if word(words, 0) != "agree" {
        return Ok(false);
    }
    let old = table(alloc, held.files()?, word(words, 1))?;
    let new = table(alloc, held.files()?, word(words, 2))?;
    say_of_bytes::<Brand>(alloc, &old, &new, given, Blank::new(1), out)?;
    Ok(true)
}

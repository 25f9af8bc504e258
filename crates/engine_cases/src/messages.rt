//! Asks of the rules within one message.
ghost use Rattle.std.specs.Prelude.{◌≡◌};

use cases::{say, word};
use feed_codec::{check_entity, decode_entity};
use feed_values::{Entity, Path};
use message_rules::MessageGroup;
use rt_outside::Steps;
use rule_clear::LocalRule;
use rule_table::{EntityId, EntityKey, Finding, FindingList, Place};
use std::alloc::{AllocError, Global};
use std::marker::Brand;
use std::sync::ledger::{Blank, Ledger};
use timetable::Timetable;

fn judged<L: Ledger>(
    alloc: Global,
    table: &Timetable,
    entity: &Entity,
    steps: &mut Steps<L>,
) -> Result<FindingList, AllocError> {
    let key = EntityKey {
        feed: 0,
        id: EntityId::of(alloc, entity.id.as_str())?,
        occurrence: 1,
    };
    let mut out = FindingList::new(alloc);
    MessageGroup::new().judge(alloc, table, &key, entity, &mut out, steps)?;
    Ok(out)
}

// The findings at the entity of bytes, where they pass. It is the second of its id.
fn findings<L: Ledger>(
    alloc: Global,
    table: &Timetable,
    bytes: &[u8],
    blank: Blank,
) -> Result<Option<FindingList>, AllocError>
    requires name { blank.name ≡ L.name }
    requires parts { blank.parts ≡ L.parts }
    requires one { blank.parts ≡ 1 }
{
    let mut steps: Steps<L> = Steps::new(blank);
    match check_entity(bytes, 0) {
        Ok(()) => {
            let entity = decode_entity(alloc, bytes, &mut steps)?;
            Ok(Some(judged(alloc, table, &entity, &mut steps)?))
        }
        Err(_) => Ok(None),
    }
}

// No timetable, boxed, so that each way out of a function drops one box.
fn absent(alloc: Global) -> Result<Box<Timetable>, AllocError> {
    Ok(Box::new(alloc, Timetable::absent(alloc))?)
}

fn path_of(place: &Place) -> Path {
    match place {
        Place::Entity(_, path) => *path,
        Place::Head(_, slot) => Path {
            slot: *slot,
            index: 0,
        },
    }
}

fn say_finding(alloc: Global, finding: &Finding, out: &mut Vec<u8>) -> Result<(), AllocError> {
    let rule = finding.rule().name();
    let path = path_of(finding.place()).text(alloc)?;
    say(out, format!(in alloc; "{rule} {path}")?.as_str())
}

fn say_findings(alloc: Global, list: &FindingList, out: &mut Vec<u8>) -> Result<(), AllocError> {
    for place in 0..list.len() {
        say_finding(alloc, list.get(place), out)?;
    }
    Ok(())
}

/// Answers `judge` with an entity's bytes below.
pub fn answer(
    alloc: Global,
    words: &[String],
    given: &[u8],
    out: &mut Vec<u8>,
) -> Result<bool, AllocError> {
    if word(words, 0) != "judge" {
        return Ok(false);
    }
    let table = absent(alloc)?;
    match findings::<Brand>(alloc, &table, given, Blank::new(1))? {
        Some(list) => say_findings(alloc, &list, out)?,
        None => say(out, "refused")?,
    }
    Ok(true)
}

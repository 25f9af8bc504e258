//! Asks of a timetable.

use crate::held::Held;
use crate::lengthened::Lengthened;
use crate::trips;
use cases::{say, say_some, say_whether, size, word};
use rt_outside::Files;
use std::alloc::{AllocError, Global};
use timetable::{LoadFault, Timetable};

// Answers `present`, `agency ID`, `route ID`, `stop ID`, and what is asked of a trip.
fn answer_of(
    alloc: Global,
    table: &Timetable,
    words: &[String],
    out: &mut Vec<u8>,
) -> Result<(), AllocError> {
    match word(words, 0) {
        "present" => say_whether(out, table.is_present()),
        "agency" => say_whether(out, table.has_agency(word(words, 1))),
        "route" => say_whether(out, table.has_route(word(words, 1))),
        "stop" => say_some(alloc, out, table.stop_kind(word(words, 1))),
        _ => trips::answer(alloc, table, words, out),
    }
}

// Answers an ask of the timetable in a folder, or tells its first fault.
fn answer_in<F: Files + Drop>(
    alloc: Global,
    mut files: F,
    folder: &str,
    words: &[String],
    out: &mut Vec<u8>,
) -> Result<(), AllocError> {
    match Timetable::load(alloc, &mut files, folder) {
        Ok(table) => answer_of(alloc, &table, words, out),
        Err(fault) => say_refused(alloc, fault, out),
    }
}

// What is told of a timetable that is refused, without its folder.
fn say_refused(alloc: Global, fault: LoadFault, out: &mut Vec<u8>) -> Result<(), AllocError> {
    let told = fault.text(alloc)?;
    say(out, told.as_str())
}

// The words from a place on.
fn words_from(words: &[String], place: usize) -> &[String] {
    if place < words.len() {
        &words[place..]
    } else {
        &[]
    }
}

/// Answers `in FOLDER ASK ..`, `absent ASK ..`, and `lengthened NAME SIZE in FOLDER ASK ..`, in which the file has so many bytes.
pub fn answer(
    alloc: Global,
    held: &Held,
    words: &[String],
    out: &mut Vec<u8>,
) -> Result<bool, AllocError> {
    match word(words, 0) {
        "in" => {
            let files = held.files()?;
            answer_in(alloc, files, word(words, 1), words_from(words, 2), out)?;
        }
        "lengthened" => {
            let files = Lengthened::new(held.quiet_files()?, word(words, 1), size(words, 2));
            answer_in(alloc, files, word(words, 4), words_from(words, 5), out)?;
        }
        "absent" => {
            let table = Timetable::absent(alloc);
            answer_of(alloc, &table, words_from(words, 1), out)?;
        }
        _ => return Ok(false),
    }
    Ok(true)
}

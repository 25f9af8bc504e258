//! Lines of the cells of a value, each with its path.

use crate::slots::slots;
use cases::{say, say_some};
use feed_values::{CellRef, Entity, FeedHeader, Path, field_at, header_at};
use std::alloc::{AllocError, Global};

fn put_path(alloc: Global, path: Path, answer: &mut Vec<u8>) -> Result<(), AllocError> {
    answer.extend_from_slice(path.text(alloc)?.as_bytes())?;
    answer.extend_from_slice(b" ")
}

// A line of a cell that is given: its path and what it holds, a text in quotes.
fn say_cell(
    alloc: Global,
    path: Path,
    cell: CellRef<'_>,
    answer: &mut Vec<u8>,
) -> Result<(), AllocError> {
    match cell {
        CellRef::Missing => Ok(()),
        CellRef::Number(number) => {
            put_path(alloc, path, answer)?;
            say_some(alloc, answer, Some(number))
        }
        CellRef::Text(text) => {
            put_path(alloc, path, answer)?;
            say(answer, format!(in alloc; "\"{text}\"")?.as_str())
        }
    }
}

/// The cells of an entity that are given, of all slots at the indices 0, 1 and 2.
pub fn say_entity_cells(
    alloc: Global,
    entity: &Entity,
    answer: &mut Vec<u8>,
) -> Result<(), AllocError> {
    for slot in slots() {
        for index in 0..3 {
            let path = Path { slot: *slot, index };
            say_cell(alloc, path, field_at(entity, path), answer)?;
        }
    }
    Ok(())
}

/// The cells of a header that are given, of all slots.
pub fn say_header_cells(
    alloc: Global,
    header: &FeedHeader,
    answer: &mut Vec<u8>,
) -> Result<(), AllocError> {
    for slot in slots() {
        let path = Path {
            slot: *slot,
            index: 0,
        };
        say_cell(alloc, path, header_at(header, *slot), answer)?;
    }
    Ok(())
}

//! Where the header and the entities of a snapshot lie in its bytes.
ghost use Rattle.std.specs.Prelude.{◌≡◌, [], IfOk};
ghost use Rattle.rt_wire.specs.Placed.{LiesIn, placed_field};
ghost use Rattle.feed_stream.specs.declared.header.Header.TheVariants.{Missing};
ghost use Rattle.feed_stream.specs.Parts.{IsHeader};
ghost use Rattle.feed_stream.specs.Layouts.{TakesField};

use crate::header::Header;
use crate::numbers::{ENTITY, HEADER};
use crate::part::Part;
use rt_wire::{RawField, RawValue};
use std::alloc::{AllocError, Global};

/// The header of a snapshot, and the ranges of the payloads of its entities, in order.
#[derive(Drop)]
pub struct Layout {
    pub header: Header,
    pub entities: Vec<Part>,
}

impl Layout {
    /// Neither a header nor entities. It takes no memory.
    pub fn new(alloc: Global) -> Layout
        ensures header { result.header ≡ Missing }
        ensures entities { result.entities.items ≡ [] }
    {
        Layout {
            header: Header::Missing,
            entities: Vec::new(alloc),
        }
    }

    /// The layout with one more field of the bytes.
    pub fn with(
        self,
        alloc: Global,
        bytes: &[u8],
        field: RawField<'_>,
    ) -> Result<Layout, AllocError>
        requires header { IsHeader bytes.now self.header }
        requires field { LiesIn bytes.now field }
        ensures { IfOk result (TakesField bytes.now (placed_field field.entry) self) }
    {
        let Layout { header, entities } = self;
        let RawValue::Len(_) = field.value else {
            return Ok(Layout { header, entities });
        };
        let part = Part {
            start: field.body,
            end: field.end,
        };
        match field.number {
            HEADER => {
                let header = header.with(alloc, bytes, part)?;
                Ok(Layout { header, entities })
            }
            ENTITY => {
                let mut entities = entities;
                entities.push(part)?;
                Ok(Layout { header, entities })
            }
            _ => Ok(Layout { header, entities }),
        }
    }
}

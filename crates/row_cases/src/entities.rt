//! Entities by their bytes.
ghost use Rattle.std.specs.Prelude.{◌≡◌};

use feed_codec::{check_entity, decode_entity};
use feed_values::Entity;
use rt_outside::Steps;
use std::alloc::{AllocError, Global};
use std::marker::Brand;
use std::sync::ledger::{Blank, Ledger};

fn decoded<L: Ledger>(
    alloc: Global,
    bytes: &[u8],
    blank: Blank,
) -> Result<Option<Entity>, AllocError>
    requires name { blank.name ≡ L.name }
    requires parts { blank.parts ≡ L.parts }
    requires one { blank.parts ≡ 1 }
{
    let mut steps: Steps<L> = Steps::new(blank);
    match check_entity(bytes, 0) {
        Ok(()) => Ok(Some(decode_entity(alloc, bytes, &mut steps)?)),
        Err(_) => Ok(None),
    }
}

/// The entity of some bytes; none of no bytes, or where they are refused.
pub fn entity_of(alloc: Global, bytes: &[u8]) -> Result<Option<Entity>, AllocError> {
    if bytes.is_empty() {
        return Ok(None);
    }
    decoded::<Brand>(alloc, bytes, Blank::new(1))
}

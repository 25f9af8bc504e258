//! The first few of many.
ghost use Rattle.std.specs.Prelude.{◌≡◌, OnOk};
ghost use Rattle.report_counts.specs.Shown.{shown_more};

use feed_values::Items;
use std::alloc::AllocError;

/// How many are kept.
const SHOWN: usize = 10;

/// Appends an item, while there are few.
pub fn push_shown<T: Drop>(items: &mut Items<T>, item: T) -> Result<(), AllocError>
    ensures { OnOk result (items.new ≡ shown_more items.old item) }
{
    if items.as_slice().len() < SHOWN {
        items.push(item)?;
    }
    Ok(())
}

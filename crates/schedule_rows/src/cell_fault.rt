//! Why a row is refused.

use crate::column::Column;
use std::alloc::AllocError;

/// The first fault of a row by itself.
#[derive(Clone, Copy)]
pub enum CellFault {
    /// A field that is read isn't UTF-8.
    NotText,
    /// A field isn't a value of its column.
    BadValue(Column),
    /// Memory was refused.
    Memory,
}

impl From<AllocError> for CellFault {
    ghost use Rattle.std.specs.Prelude.{◌≡◌};
    ghost use Rattle.schedule_rows.specs.declared.cell_fault.CellFault.TheVariants.{Memory};

    ghost from_gives = { λ _ fault. fault ≡ Memory };

    fn from(_error: AllocError) -> CellFault {
        CellFault::Memory
    }
}

//! Why a timetable is refused.

use schedule_rows::{Column, File};
use std::alloc::{AllocError, Global};

/// The first fault of a timetable.
///
/// Files come in the order of `File`. In a file a missing file comes first, then a file that is too
/// large, then missing columns, then its rows in order; in a row the columns in order, each first as
/// text and then as a value, and last the key. Rows count from the header as row 1.
#[derive(Clone, Copy, Debug, PartialEq, Eq)]
pub enum LoadFault {
    /// A required file is absent.
    MissingFile(File),
    /// A required column isn't in the header row.
    MissingColumn(File, Column),
    /// A field that is read isn't UTF-8.
    BadText(File, u64),
    /// A field isn't a value of its column.
    BadValue(File, u64, Column),
    /// The key of a row stood in an earlier row.
    RepeatedKey(File, u64),
    /// A file has more than 536,870,912 bytes.
    TooLarge(File),
    /// The outside failed while the file was read.
    ReadFault(File),
    /// Memory was refused.
    Memory,
}

impl LoadFault {
    ghost use Rattle.std.specs.Prelude.{◌≡◌, IfOk, string_bytes};
    ghost use Rattle.schedule_tables.specs.Faults.{fault_text};

    /// What is wrong, as it is told: the file without its folder, and what is wrong there.
    pub fn text(self, alloc: Global) -> Result<String, AllocError>
        ensures { IfOk result (λ text. string_bytes text ≡ fault_text self) }
    {
        match self {
            LoadFault::MissingFile(file) => format!(in alloc; "{}: missing file", file.name()),
            LoadFault::MissingColumn(file, column) => {
                format!(in alloc; "{}: missing column {}", file.name(), column.name())
            }
            LoadFault::BadText(file, row) => {
                format!(in alloc; "{}: row {row}: not text", file.name())
            }
            LoadFault::BadValue(file, row, column) => {
                format!(in alloc;
                    "{}: row {row}: bad value in {}",
                    file.name(),
                    column.name()
                )
            }
            LoadFault::RepeatedKey(file, row) => {
                format!(in alloc; "{}: row {row}: repeated key", file.name())
            }
            LoadFault::TooLarge(file) => format!(in alloc; "{}: too large", file.name()),
            LoadFault::ReadFault(file) => format!(in alloc; "{}: read fault", file.name()),
            LoadFault::Memory => String::from_str(alloc, "out of memory"),
        }
    }
}

impl From<AllocError> for LoadFault {
    ghost use Rattle.std.specs.Prelude.{◌≡◌};
    ghost use Rattle.schedule_tables.specs.declared.fault.LoadFault.TheVariants.{Memory};

    ghost from_gives = { λ _ fault. fault ≡ Memory };

    fn from(_error: AllocError) -> LoadFault {
        LoadFault::Memory
    }
}

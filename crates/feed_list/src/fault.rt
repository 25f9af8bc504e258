//! Why a list is refused.
ghost use Rattle.std.specs.Prelude.{◌≡◌, IfOk, string_bytes};
ghost use Rattle.feed_list.specs.Texts.{bad_value_text, fault_text};

use crate::column::Column;
use std::alloc::{AllocError, Global};

/// The first fault of a list.
///
/// A missing file comes first, then a list that is too large, in bytes and then in rows, then the rows in order. In a row
/// the count of its fields comes first, then the columns in order, each first as text and then as a value. Rows count from 1.
#[derive(Clone, Copy, Debug, PartialEq, Eq)]
pub enum ListFault {
    /// The file is absent.
    MissingFile,
    /// The file has more than 134,217,728 bytes, or the list more than 1,000,000 rows.
    TooLarge,
    /// The row hasn't three fields.
    NotThreeFields(u64),
    /// The field isn't UTF-8.
    NotText(u64, Column),
    /// The field isn't a value of its column.
    BadValue(u64, Column),
    /// The outside failed while the file was read.
    ReadFault,
    /// Memory was refused.
    Memory,
}

impl ListFault {
    /// What is wrong with the list, as it is told behind the name of its file.
    ///
    /// A row that hasn't three fields is told as a bad path. The text is empty where nothing is wrong with the list
    /// itself: where reading failed, or memory was refused.
    pub fn text(self, alloc: Global) -> Result<String, AllocError>
        ensures { IfOk result (λ text. string_bytes text ≡ fault_text self) }
    {
        match self {
            ListFault::MissingFile => String::from_str(alloc, "missing file"),
            ListFault::TooLarge => String::from_str(alloc, "too large"),
            ListFault::NotThreeFields(row) => bad_value(alloc, row, Column::Path),
            ListFault::NotText(row, _) => format!(in alloc; "row {row}: not text"),
            ListFault::BadValue(row, column) => bad_value(alloc, row, column),
            ListFault::ReadFault | ListFault::Memory => Ok(String::new(alloc)),
        }
    }
}

fn bad_value(alloc: Global, row: u64, column: Column) -> Result<String, AllocError>
    ensures { IfOk result (λ text. string_bytes text ≡ bad_value_text row column) }
{
    format!(in alloc; "row {}: bad value in {}", row, column.name())
}

impl From<AllocError> for ListFault {
    ghost use Rattle.std.specs.Prelude.{◌≡◌};
    ghost use Rattle.feed_list.specs.declared.fault.ListFault.TheVariants.{Memory};

    ghost from_gives = { λ _ fault. fault ≡ Memory };

    fn from(_error: AllocError) -> ListFault {
        ListFault::Memory
    }
}

//! Cited cells by their numbers.
ghost use Rattle.std.specs.Prelude.{◌≡◌, IfOk, map, option_copied};
ghost use Rattle.feed_values.specs.Cells.{cell_value};
ghost use Rattle.rule_table.specs.Asked.{value_at, text_at, number_at, sequence_at, in_range};
ghost use Rattle.rule_table.specs.Answers.{yes, natural_cell};

use feed_values::{CellRef, CellValue, Text};
use std::alloc::{AllocError, Global};

/// The cell with a number, `Missing` where there is none.
pub(crate) fn cell_at<'a>(cells: &[CellRef<'a>], k: usize) -> CellRef<'a>
    ensures { cell_value result ≡ value_at (map cell_value cells.now) k }
{
    match cells.get(k) {
        Some(cell) => *cell,
        None => CellRef::Missing,
    }
}

/// Its text, if it is one.
pub(crate) fn text_at<'a>(cells: &[CellRef<'a>], k: usize) -> Option<&'a str>
    ensures { option_copied result ≡ text_at (map cell_value cells.now) k }
{
    match cell_at(cells, k) {
        CellRef::Text(text) => Some(text),
        _ => None,
    }
}

/// Its number, if it is one.
pub(crate) fn number_at(cells: &[CellRef<'_>], k: usize) -> Option<i128>
    ensures { result ≡ number_at (map cell_value cells.now) k }
{
    match cell_at(cells, k) {
        CellRef::Number(number) => Some(number),
        _ => None,
    }
}

/// Its number, if it is one that a stop_sequence may be.
pub(crate) fn sequence_at(cells: &[CellRef<'_>], k: usize) -> Option<u32>
    ensures { result ≡ sequence_at (map cell_value cells.now) k }
{
    match number_at(cells, k) {
        None => None,
        Some(number) => {
            if 0 <= number && number <= 4294967295 {
                Some(number as u32)
            } else {
                None
            }
        }
    }
}

/// Whether a number lies from -2^63 to 2^64 - 1, as every answer does.
pub fn is_in_range(cell: CellRef<'_>) -> bool
    ensures { result ≡ in_range (cell_value cell.entry) }
{
    match cell {
        CellRef::Number(number) => {
            -9223372036854775808 <= number && number <= 18446744073709551615
        }
        _ => true,
    }
}

/// The cell with its text borrowed.
pub fn cell_of(value: &CellValue) -> CellRef<'_>
    ensures { cell_value result ≡ value.now }
{
    match value {
        CellValue::Missing => CellRef::Missing,
        CellValue::Number(number) => CellRef::Number(*number),
        CellValue::Text(text) => CellRef::Text(text.as_str()),
    }
}

/// The cell with a text of its own.
pub(crate) fn value_of(alloc: Global, cell: CellRef<'_>) -> Result<CellValue, AllocError>
    ensures { IfOk result (λ value. value ≡ cell_value cell.entry) }
{
    match cell {
        CellRef::Missing => Ok(CellValue::Missing),
        CellRef::Number(number) => Ok(CellValue::Number(number)),
        CellRef::Text(text) => Ok(CellValue::Text(Text::of(alloc, text)?)),
    }
}

/// A yes or a no as a cell: 1 or 0.
pub fn truth_cell(holds: bool) -> CellRef<'static>
    ensures { cell_value result ≡ yes holds }
{
    CellRef::Number(holds as i128)
}

/// A number as a cell, `Missing` where there is none.
pub fn number_cell(number: Option<u32>) -> CellRef<'static>
    ensures { cell_value result ≡ natural_cell number }
{
    feed_values::natural_cell(number.map(u64::from))
}

//! The tests of the rules, on cited cells.
ghost use Rattle.std.specs.Prelude.{◌≡◌, ◌&&◌, map, is_some, not, pos, int_le, ◌+ℤ◌, codes, bytes_eq, option_copied};
ghost use Rattle.feed_values.specs.Cells.{cell_value};
ghost use Rattle.rule_table.specs.Asked.{place_value, value_at, text_at, number_at, number_in, text_in};
ghost use Rattle.rule_table.specs.Passed.{holds, passes, passes_by, last_of, later, is_given, same_cell, is_number, number_is, numbers_are, text_is, given_or, is_clock, is_other_time, is_itself};
ghost use Rattle.rt_day.specs.Time.{sixtieth_of, time_of};
ghost use Rattle.rt_day.specs.Date.{date_of};

use crate::cells::{cell_at, number_at, text_at};
use crate::place::PlaceRef;
use crate::row::Atom;
use feed_values::CellRef;
use rt_day::{parse_date, parse_digits, parse_time};

pub(crate) fn is_given(cell: CellRef<'_>) -> bool
    ensures { result ≡ is_given (cell_value cell.entry) }
{
    match cell {
        CellRef::Missing => false,
        _ => true,
    }
}

pub(crate) fn are_same_cells(first: CellRef<'_>, second: CellRef<'_>) -> bool
    ensures { result ≡ same_cell (cell_value first.entry) (cell_value second.entry) }
{
    match (first, second) {
        (CellRef::Missing, CellRef::Missing) => true,
        (CellRef::Number(a), CellRef::Number(b)) => a == b,
        (CellRef::Text(a), CellRef::Text(b)) => a == b,
        _ => false,
    }
}

fn are_equal(first: CellRef<'_>, second: CellRef<'_>) -> bool
    ensures { result ≡ (is_given (cell_value first.entry) && same_cell (cell_value first.entry) (cell_value second.entry)) }
{
    is_given(first) && are_same_cells(first, second)
}

fn differ(first: CellRef<'_>, second: CellRef<'_>) -> bool
    ensures { result ≡ (is_given (cell_value first.entry) && is_given (cell_value second.entry) && not (same_cell (cell_value first.entry) (cell_value second.entry))) }
{
    is_given(first) && is_given(second) && !are_same_cells(first, second)
}

fn is_number(cell: CellRef<'_>, number: u32) -> bool
    ensures { result ≡ is_number number (cell_value cell.entry) }
{
    match cell {
        CellRef::Number(value) => value == number as i128,
        _ => false,
    }
}

/// The second where it is given, and else the first.
fn given_or<'a>(first: CellRef<'a>, second: CellRef<'a>) -> CellRef<'a>
    ensures { cell_value result ≡ given_or (cell_value first.entry) (cell_value second.entry) }
{
    match second {
        CellRef::Missing => first,
        _ => second,
    }
}

fn number_of(cell: CellRef<'_>) -> Option<i128>
    ensures { result ≡ number_in (cell_value cell.entry) }
{
    match cell {
        CellRef::Number(number) => Some(number),
        _ => None,
    }
}

fn is_at_most(first: Option<i128>, second: Option<i128>) -> bool
    ensures { result ≡ numbers_are (λ x y. int_le y x) second first }
{
    match (second, first) {
        (Some(second), Some(first)) => first <= second,
        _ => false,
    }
}

fn is_below(first: Option<i128>, second: Option<i128>) -> bool
    ensures { result ≡ numbers_are (λ x y. not (int_le y x)) first second }
{
    match (first, second) {
        (Some(first), Some(second)) => first < second,
        _ => false,
    }
}

fn is_sixtieth(text: &str) -> bool
    ensures { result ≡ is_some (sixtieth_of text.now) }
{
    match parse_digits(text, 2, 2) {
        Some(number) => number <= 59,
        None => false,
    }
}

/// Whether a text is two or three digits, a colon, two digits up to 59, a colon and two digits up to 59.
fn is_clock(text: &str) -> bool
    ensures { result ≡ is_clock text.now }
{
    match text.split_once(':') {
        None => false,
        Some((hours, rest)) => match rest.split_once(':') {
            None => false,
            Some((minutes, seconds)) => {
                parse_digits(hours, 2, 3).is_some() && is_sixtieth(minutes) && is_sixtieth(seconds)
            }
        },
    }
}

fn is_time(text: &str) -> bool
    ensures { result ≡ is_some (time_of text.now) }
{
    parse_time(text).is_some()
}

fn is_date(text: &str) -> bool
    ensures { result ≡ is_some (date_of text.now) }
{
    parse_date(text).is_some()
}

/// Whether the first is above the second by more than a number.
fn is_above(first: Option<i128>, second: Option<i128>, by: u32) -> bool
    ensures { result ≡ numbers_are (λ x y. not (int_le x (y +ℤ pos by))) first second }
{
    match (first, second) {
        (Some(first), Some(second)) => match second.checked_add(by as i128) {
            Some(bound) => bound < first,
            None => false,
        },
        _ => false,
    }
}

fn is_outside(number: Option<i128>, low: u32, high: u32) -> bool
    ensures { result ≡ number_is (λ x. not (int_le (pos low) x && int_le x (pos high))) number }
{
    match number {
        Some(number) => !(low as i128 <= number && number <= high as i128),
        None => false,
    }
}

fn is_at_least(number: Option<i128>, least: u32) -> bool
    ensures { result ≡ number_is (λ x. int_le (pos least) x) number }
{
    match number {
        Some(number) => least as i128 <= number,
        None => false,
    }
}

/// Whether a cell is given and isn't the number of seconds of a time.
fn is_other_time(cell: CellRef<'_>, time: Option<u32>) -> bool
    ensures { result ≡ is_other_time (cell_value cell.entry) time }
{
    match time {
        Some(seconds) => is_given(cell) && !is_number(cell, seconds),
        None => false,
    }
}

fn is_text(cell: CellRef<'_>, wanted: &str) -> bool
    ensures { result ≡ text_is (λ t. bytes_eq t wanted.now) (text_in (cell_value cell.entry)) }
{
    match cell {
        CellRef::Text(text) => text == wanted,
        _ => false,
    }
}

fn is_clock_cell(cell: CellRef<'_>) -> bool
    ensures { result ≡ text_is is_clock (text_in (cell_value cell.entry)) }
{
    match cell {
        CellRef::Text(text) => is_clock(text),
        _ => false,
    }
}

fn is_date_cell(cell: CellRef<'_>) -> bool
    ensures { result ≡ text_is (λ t. is_some (date_of t)) (text_in (cell_value cell.entry)) }
{
    match cell {
        CellRef::Text(text) => is_date(text),
        _ => false,
    }
}

fn is_time_cell(cell: CellRef<'_>) -> bool
    ensures { result ≡ text_is (λ t. is_some (time_of t)) (text_in (cell_value cell.entry)) }
{
    match cell {
        CellRef::Text(text) => is_time(text),
        _ => false,
    }
}

/// Whether a text is a time, and another cell is given and isn't its number of seconds.
fn time_differs(text: CellRef<'_>, cell: CellRef<'_>) -> bool
    ensures { result ≡ text_is (λ t. is_other_time (cell_value cell.entry) (time_of t)) (text_in (cell_value text.entry)) }
{
    match text {
        CellRef::Text(text) => is_other_time(cell, parse_time(text)),
        _ => false,
    }
}

/// Whether an id and an occurrence are those of the place's entity.
fn is_itself(place: PlaceRef<'_>, id: CellRef<'_>, occurrence: CellRef<'_>) -> bool
    ensures { result ≡ is_itself (place_value place.entry) (text_in (cell_value id.entry)) (cell_value occurrence.entry) }
{
    match place {
        PlaceRef::Head(_, _) => false,
        PlaceRef::Entity(key, _) => {
            is_text(id, key.id.as_str()) && is_number(occurrence, key.occurrence)
        }
    }
}

/// Whether a condition holds of the cells that were cited at a place.
fn condition_holds(place: PlaceRef<'_>, cells: &[CellRef<'_>], atom: Atom) -> bool
    ensures { result ≡ holds (place_value place.entry) (map cell_value cells.now) atom }
{
    match atom {
        Atom::Given(k) => is_given(cell_at(cells, k)),
        Atom::Missing(k) => !is_given(cell_at(cells, k)),
        Atom::Is(k, number) => is_number(cell_at(cells, k), number),
        Atom::IsNot(k, number) => !is_number(cell_at(cells, k), number),
        Atom::AtLeast(k, number) => is_at_least(number_at(cells, k), number),
        Atom::AnyMissing(j, k) => !is_given(cell_at(cells, j)) || !is_given(cell_at(cells, k)),
        Atom::Outside(k, low, high) => is_outside(number_at(cells, k), low, high),
        Atom::NotBelow(j, k) => is_at_most(number_at(cells, k), number_at(cells, j)),
        Atom::Below(j, k) => is_below(number_at(cells, j), number_at(cells, k)),
        Atom::Above(j, k, by) => is_above(number_at(cells, j), number_at(cells, k), by),
        Atom::Equal(j, k) => are_equal(cell_at(cells, j), cell_at(cells, k)),
        Atom::Differ(j, k) => differ(cell_at(cells, j), cell_at(cells, k)),
        Atom::IsTime(k) => is_time_cell(cell_at(cells, k)),
        Atom::NotClock(k) => is_given(cell_at(cells, k)) && !is_clock_cell(cell_at(cells, k)),
        Atom::NotDate(k) => is_given(cell_at(cells, k)) && !is_date_cell(cell_at(cells, k)),
        Atom::TimeDiffers(j, k) => time_differs(cell_at(cells, j), cell_at(cells, k)),
        Atom::NotLater(a, b, c, d) => is_at_most(
            number_of(given_or(cell_at(cells, d), cell_at(cells, c))),
            number_of(given_or(cell_at(cells, a), cell_at(cells, b))),
        ),
        Atom::NotVersion(k) => !is_text(cell_at(cells, k), "1.0")
            && !is_text(cell_at(cells, k), "2.0"),
        Atom::IsVersion2(k) => is_text(cell_at(cells, k), "2.0"),
        Atom::NotVersion2(k) => !is_text(cell_at(cells, k), "2.0"),
        Atom::NotItself(j, k) => !is_itself(place, cell_at(cells, j), cell_at(cells, k)),
    }
}

/// Whether all conditions hold.
pub fn test_passes(place: PlaceRef<'_>, atoms: &[Atom], cells: &[CellRef<'_>]) -> bool
    ensures { result ≡ passes (place_value place.entry) atoms.now (map cell_value cells.now) }
{
    atoms
        .iter()
        .all(|atom| condition_holds(place, cells, *atom))
}

fn latter(j: usize, k: usize) -> usize
    ensures { result ≡ later j k }
{
    if j <= k { k } else { j }
}

/// The last fact that a condition speaks of.
fn last(atom: Atom) -> usize
    ensures { result ≡ last_of atom }
{
    match atom {
        Atom::Given(k)
        | Atom::Missing(k)
        | Atom::Is(k, _)
        | Atom::IsNot(k, _)
        | Atom::AtLeast(k, _)
        | Atom::Outside(k, _, _)
        | Atom::IsTime(k)
        | Atom::NotClock(k)
        | Atom::NotDate(k)
        | Atom::NotVersion(k)
        | Atom::IsVersion2(k)
        | Atom::NotVersion2(k) => k,
        Atom::AnyMissing(j, k)
        | Atom::NotBelow(j, k)
        | Atom::Below(j, k)
        | Atom::Above(j, k, _)
        | Atom::Equal(j, k)
        | Atom::Differ(j, k)
        | Atom::TimeDiffers(j, k)
        | Atom::NotItself(j, k) => latter(j, k),
        Atom::NotLater(a, b, c, d) => latter(latter(a, b), latter(c, d)),
    }
}

/// Whether no condition whose last fact has a number is false.
pub(crate) fn test_passes_by(
    place: PlaceRef<'_>,
    n: usize,
    atoms: &[Atom],
    cells: &[CellRef<'_>],
) -> bool
    ensures { result ≡ passes_by (place_value place.entry) n atoms.now (map cell_value cells.now) }
{
    atoms.iter().all(|atom| last(*atom) != n || condition_holds(place, cells, *atom))
}

//! The values of cells, read from their text.

ghost use Rattle.std.specs.Prelude.{◌≡◌};

use rt_day::{Day, parse_date};

/// A value that a cell may have.
pub trait Value: Sized {
    ghost use Rattle.std.specs.Prelude.{◌≡◌, List, ℕ, Option};

    ghost value_of: { List ℕ → Option Self };

    /// None exactly where the text isn't such a value.
    fn parse(text: &str) -> Option<Self>
        ensures { result ≡ value_of text.now };
}

impl Value for Day {
    ghost use Rattle.schedule_rows.specs.Values.{calendar_day};

    ghost value_of = { calendar_day };

    fn parse(text: &str) -> Option<Day> {
        parse_date(text)
    }
}

/// A value that may be left blank.
impl<V: Value> Value for Option<V> {
    ghost use Rattle.schedule_rows.specs.Cells.{optional};

    ghost value_of = { optional V.value_of };

    fn parse(text: &str) -> Option<Option<V>> {
        if text.is_empty() {
            return Some(None);
        }
        match V::parse(text) {
            Some(value) => Some(Some(value)),
            None => None,
        }
    }
}

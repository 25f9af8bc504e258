//! The cell exception_type.

use crate::value::Value;

/// Whether a date is added to a service, or removed.
#[derive(Clone, Copy)]
pub(crate) struct Change(pub bool);

impl Value for Change {
    ghost use Rattle.schedule_rows.specs.Values.{change_of};

    ghost value_of = { change_of };

    fn parse(text: &str) -> Option<Change> {
        match text {
            "1" => Some(Change(true)),
            "2" => Some(Change(false)),
            _ => None,
        }
    }
}

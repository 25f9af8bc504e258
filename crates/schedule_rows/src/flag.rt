//! A cell that is 0 or 1.

use crate::value::Value;

/// 0 or 1.
#[derive(Clone, Copy)]
pub(crate) struct Flag(pub bool);

impl Value for Flag {
    ghost use Rattle.schedule_rows.specs.Values.{flag_of};

    ghost value_of = { flag_of };

    fn parse(text: &str) -> Option<Flag> {
        match text {
            "0" => Some(Flag(false)),
            "1" => Some(Flag(true)),
            _ => None,
        }
    }
}

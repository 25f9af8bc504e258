//! The lines of a row.
ghost use Rattle.std.specs.Prelude.{◌≡◌, ◌++◌};
ghost use Rattle.std.specs.List.{list_any};
ghost use Rattle.follow_engine.specs.Deltas.{all_opened, all_closed};
ghost use Rattle.rt_report.specs.FindingLines.{any_error, is_error};
ghost use Rattle.run_rows.specs.Rows.{changes_text};
ghost use Rattle.run_rows.specs.Followed.{lines_text};

use feed_values::Items;
use follow_engine::{Closed, Opened};
use rt_report::is_error;
use std::alloc::Global;

/// The lines of a row: the first one, and behind it one for each finding that opened and for each rule at a place that closed.
/// Those are spelled only as they are written, since they can be many times as long as what they tell of.
#[derive(Drop)]
pub struct RowLines {
    pub first: Vec<u8>,
    pub opened: Items<Opened>,
    pub closed: Items<Closed>,
    /// Whether something was refused, or a finding that opened is of an error.
    pub error: bool,
}

impl RowLines {
    /// One line alone.
    pub fn alone(alloc: Global, first: Vec<u8>, error: bool) -> RowLines
        ensures text { lines_text result ≡ first.items }
        ensures error { result.error ≡ error }
    {
        RowLines {
            first,
            opened: Items::new(alloc),
            closed: Items::new(alloc),
            error,
        }
    }

    /// A line, and behind it those of what opened and closed.
    pub fn with_changes(first: Vec<u8>, opened: Items<Opened>, closed: Items<Closed>) -> RowLines
        ensures text { lines_text result ≡ first.items ++ changes_text (all_opened opened) (all_closed closed) }
        ensures error { result.error ≡ any_error (all_opened opened) }
    {
        let error = opens_error(opened.as_slice());
        RowLines {
            first,
            opened,
            closed,
            error,
        }
    }
}

/// Whether a finding that opened is of an error.
fn opens_error(opened: &[Opened]) -> bool
    ensures { result ≡ list_any (λ x. is_error x.finding.rule) opened.now }
{
    opened.iter().any(|open| is_error(open.finding.rule()))
}

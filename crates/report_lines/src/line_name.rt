//! The kinds of lines.
ghost use Rattle.std.specs.Prelude.{◌≡◌};
ghost use Rattle.report_lines.specs.Names.{all_names, line_named, name_text};

/// A kind of a report's lines.
#[derive(Clone, Copy)]
pub enum LineName {
    Accepted,
    Refused,
    Timetable,
    RefusedTimetable,
    Finding,
    Opened,
    Closed,
    Trial,
}

const NAMES: [LineName; 8] = [
    LineName::Accepted,
    LineName::Refused,
    LineName::Timetable,
    LineName::RefusedTimetable,
    LineName::Finding,
    LineName::Opened,
    LineName::Closed,
    LineName::Trial,
];

impl LineName {
    /// The kind of a text, such as `finding`.
    pub fn named(text: &str) -> Option<LineName>
        ensures { result ≡ line_named text.now }
    {
        all_names().iter().copied().find(|name| name.text() == text)
    }

    fn text(self) -> &'static str
        ensures { result.now ≡ name_text self }
    {
        match self {
            LineName::Accepted => "accepted",
            LineName::Refused => "refused",
            LineName::Timetable => "timetable",
            LineName::RefusedTimetable => "refused_timetable",
            LineName::Finding => "finding",
            LineName::Opened => "opened",
            LineName::Closed => "closed",
            LineName::Trial => "trial",
        }
    }
}

fn all_names() -> &'static [LineName]
    ensures { result.now ≡ all_names }
{
    &NAMES
}

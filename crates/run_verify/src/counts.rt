//! How many lines have each verdict.
ghost use Rattle.std.specs.Prelude.{◌≡◌};

use crate::judged::Judged;

/// How many lines are confirmed, denied, malformed, and other lines of a report.
#[derive(Clone, Copy)]
pub struct Counts {
    pub confirmed: u64,
    pub denied: u64,
    pub malformed: u64,
    pub other: u64,
}

impl Counts {
    ghost use Rattle.run_verify.specs.Lines.{AreSmall, counted, is_bad, none};

    /// Those of no lines.
    pub fn none() -> Counts
        ensures { result ≡ none }
    {
        Counts {
            confirmed: 0,
            denied: 0,
            malformed: 0,
            other: 0,
        }
    }

    /// With one line more.
    pub fn with(self, judged: Judged) -> Counts
        requires { AreSmall self }
        ensures { result ≡ counted self judged }
    {
        match judged {
            Judged::Confirmed => Counts {
                confirmed: self.confirmed + 1,
                ..self
            },
            Judged::Denied => Counts {
                denied: self.denied + 1,
                ..self
            },
            Judged::Malformed => Counts {
                malformed: self.malformed + 1,
                ..self
            },
            Judged::Other => Counts {
                other: self.other + 1,
                ..self
            },
        }
    }

    /// Whether a line is denied or malformed.
    pub fn is_bad(self) -> bool
        ensures { result ≡ is_bad self }
    {
        self.denied > 0 || self.malformed > 0
    }
}

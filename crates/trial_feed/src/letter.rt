//! The letter that a vehicle's id begins with.
ghost use Rattle.std.specs.Prelude.{◌≡◌};
ghost use Rattle.trial_feed.specs.Moving.{other};
ghost use Rattle.trial_feed.specs.Messages.{letter_text};

/// One of two letters.
#[derive(Clone, Copy, Debug, PartialEq, Eq)]
pub enum Letter {
    V,
    W,
}

impl Letter {
    pub(crate) fn other(self) -> Letter
        ensures { result ≡ other self }
    {
        match self {
            Letter::V => Letter::W,
            Letter::W => Letter::V,
        }
    }

    pub(crate) fn text(self) -> &'static str
        ensures { result.now ≡ letter_text self }
    {
        match self {
            Letter::V => "v",
            Letter::W => "w",
        }
    }
}

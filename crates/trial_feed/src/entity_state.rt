//! What moves of an entity.
ghost use Rattle.std.specs.Prelude.{◌≡◌, ◌<◌, ◌+◌, ◌^◌};
ghost use Rattle.trial_feed.specs.Moving.{changed};

use crate::letter::Letter;

/// The letter of its vehicle's id, and a number: of a trip update the delay of its arrival, in seconds, and of a vehicle
/// position the sequence of its stop.
#[derive(Clone, Copy, Debug, PartialEq, Eq)]
pub struct EntityState {
    pub letter: Letter,
    pub number: u32,
}

impl EntityState {
    /// After a change by a number that was drawn below 4.
    pub(crate) fn changed(self, drawn: u64) -> EntityState
        requires { self.number + 1 < 2 ^ 32 }
        ensures { result ≡ changed drawn self }
    {
        if drawn == 0 {
            EntityState {
                letter: self.letter.other(),
                number: self.number,
            }
        } else {
            EntityState {
                letter: self.letter,
                number: self.number + 1,
            }
        }
    }
}

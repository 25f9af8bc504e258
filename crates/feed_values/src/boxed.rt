//! A message in a box of its own, which contracts see as the message.
ghost use Rattle.std.specs.Prelude.{◌≡◌, ◌↔◌, IfOk, IfSome, None};

use crate::Blank;
use crate::copied::Copied;
use crate::forming::Slots;
use crate::unknown::Unknown;
use std::alloc::{AllocError, Global};
use std::marker::Model;

/// A message that takes memory only where it holds something, so that a list of messages that hold nothing is small.
#[derive(Drop)]
pub struct Boxed<M: Blank> {
    held: Option<Box<M>>,
}

impl<M: Blank> Model for Boxed<M> {
    ghost use Rattle.std.specs.Prelude.{◌≢◌, Some};
    ghost use Rattle.std.specs.Option.{option_map};
    ghost use Rattle.feed_values.specs.Meaning.{option_case};

    ghost Value = { M };

    ghost view = { λ s. option_case s.held M.blank (λ b. b.value) };

    ghost invariant = { λ s. option_map (λ b. b.value) s.held ≢ Some M.blank };
}

impl<M: Blank> Boxed<M> {
    /// Boxes a message, unless it holds nothing.
    pub fn new(alloc: Global, message: M) -> Result<Boxed<M>, AllocError>
        ensures { IfOk result (λ boxed. boxed ≡ message) }
    {
        if message.is_blank() {
            return Ok(Boxed { held: None });
        }
        Ok(Boxed {
            held: Some(Box::new(alloc, message)?),
        })
    }

    /// The message, where it holds something.
    pub fn get(&self) -> Option<&M>
        ensures some { IfSome result (λ message. message.now ≡ self.now) }
        ensures none { (result ≡ None) ↔ (self.now ≡ M.blank) }
    {
        match &self.held {
            Some(message) => Some(message),
            None => None,
        }
    }

    /// The message. It takes no memory.
    pub fn into_inner(self, alloc: Global) -> M
        ensures { result ≡ self }
    {
        let Boxed { held } = self;
        match held {
            Some(message) => Box::into_inner(message),
            None => M::blank(alloc),
        }
    }
}

impl<M: Copied + Blank> Copied for Boxed<M> {
    fn copied(&self, alloc: Global) -> Result<Boxed<M>, AllocError> {
        match self.get() {
            Some(message) => Boxed::new(alloc, message.copied(alloc)?),
            None => Ok(Boxed { held: None }),
        }
    }
}

impl<M: Slots + Blank> Slots for Boxed<M> {
    ghost schema = { M.schema };

    ghost value = { M.value };

    fn takes(field: &Unknown) -> bool {
        M::takes(field)
    }
}

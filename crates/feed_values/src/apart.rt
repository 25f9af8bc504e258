//! A message in a place of its own, which contracts see as the message.
ghost use Rattle.std.specs.Prelude.{◌≡◌, IfOk};

use crate::copied::Copied;
use crate::forming::{Formed, Slots};
use crate::unknown::Unknown;
use std::alloc::{AllocError, Global};
use std::marker::Model;
use std::ops::Deref;

/// A message that takes one word where it stands, so that what may hold it is small where it doesn't.
#[derive(Drop)]
pub struct Apart<M: Drop> {
    held: Box<M>,
}

impl<M: Drop> Model for Apart<M> {
    ghost Value = { M };

    ghost view = { λ s. s.held.value };
}

impl<M: Drop> Apart<M> {
    pub fn new(alloc: Global, message: M) -> Result<Apart<M>, AllocError>
        ensures { IfOk result (λ apart. apart ≡ message) }
    {
        Ok(Apart {
            held: Box::new(alloc, message)?,
        })
    }

    /// A message that stands in a box already. It takes no memory.
    pub fn of_box(held: Box<M>) -> Apart<M>
        ensures { result ≡ held.value }
    {
        Apart { held }
    }

    /// The message in its box. It takes no memory.
    pub fn into_box(self) -> Box<M>
        ensures { result.value ≡ self }
    {
        let Apart { held } = self;
        held
    }

    /// The message. It takes no memory.
    pub fn into_inner(self) -> M
        ensures { result ≡ self }
    {
        let Apart { held } = self;
        Box::into_inner(held)
    }
}

impl<M: Drop> Deref for Apart<M> {
    type Target = M;

    ghost deref_gives = { λ apart message. message ≡ apart };

    fn deref(&self) -> &M
        ensures { result.now ≡ self.now }
    {
        &self.held
    }
}

impl<M: Copied> Copied for Apart<M> {
    fn copied(&self, alloc: Global) -> Result<Apart<M>, AllocError> {
        let message = self.held.copied(alloc)?;
        Apart::new(alloc, message)
    }
}

impl<M: Slots + Drop> Slots for Apart<M> {
    ghost schema = { M.schema };

    ghost value = { M.value };

    fn takes(field: &Unknown) -> bool {
        M::takes(field)
    }
}

impl<M: Formed + Drop> Formed for Apart<M> {
    fn is_formed(&self) -> bool {
        self.held.is_formed()
    }
}

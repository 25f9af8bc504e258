//! Ids as owned text.

ghost use Rattle.std.specs.Prelude.{◌≡◌, IfOk, string_bytes};

use std::alloc::{AllocError, Global};
use std::marker::Model;

/// An id of some table, which contracts see as its bytes. It is UTF-8.
#[derive(Drop)]
pub struct Id {
    text: String,
}

impl Model for Id {
    ghost use Rattle.std.specs.Prelude.{List, ℕ, string_bytes};

    ghost Value = { List ℕ };

    ghost view = { λ id. string_bytes id.text };
}

impl Id {
    pub fn new(alloc: Global, text: &str) -> Result<Id, AllocError>
        ensures { IfOk result (λ id. id ≡ text.now) }
    {
        let text = String::from_str(alloc, text)?;
        Ok(Id { text })
    }

    pub fn as_str(&self) -> &str
        ensures { result.now ≡ self.now }
    {
        self.text.as_str()
    }

    pub fn into_string(self) -> String
        ensures { string_bytes result ≡ self }
    {
        self.text
    }
}

//! Ids that many rows have.

ghost use Rattle.std.specs.Prelude.{◌≡◌, IfOk};

use crate::id::Id;
use indexmap::IndexSet;
use std::alloc::{AllocError, Global};
use std::marker::Model;
use std::rc::RcStr;

/// An id whose text others may hold too. Contracts see its bytes. It is UTF-8.
#[derive(Drop)]
pub struct SharedId {
    text: RcStr,
}

impl Model for SharedId {
    ghost use Rattle.std.specs.Prelude.{List, ℕ};
    ghost use Rattle.std.specs.Rc.{rc_str_bytes};

    ghost Value = { List ℕ };

    ghost view = { λ id. rc_str_bytes id.text };
}

impl SharedId {
    pub fn new(id: Id) -> Result<SharedId, AllocError>
        ensures { IfOk result (λ shared. shared ≡ id) }
    {
        let text = RcStr::from_string(id.into_string())?;
        Ok(SharedId { text })
    }

    pub fn as_str(&self) -> &str
        ensures { result.now ≡ self.now }
    {
        self.text.as_str()
    }
}

/// Texts of ids, once each. They save memory and nothing else, so no clause speaks of them.
#[derive(Drop)]
pub struct SharedIds {
    texts: IndexSet<RcStr>,
}

impl SharedIds {
    pub fn new(alloc: Global) -> SharedIds {
        SharedIds {
            texts: IndexSet::new(alloc),
        }
    }

    /// The same id, with the text of the first one that was equal.
    pub fn shared(&mut self, id: SharedId) -> Result<SharedId, AllocError>
        ensures { IfOk result (λ shared. shared ≡ id) }
    {
        if let Some(text) = self.texts.get(id.as_str()) {
            let text = text.clone()?;
            return Ok(SharedId { text });
        }
        self.texts.insert(id.text.clone()?)?;
        Ok(id)
    }
}

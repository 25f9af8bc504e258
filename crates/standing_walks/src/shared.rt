//! A finding that copies share.
ghost use Rattle.std.specs.Prelude.{◌≡◌, IfOk};

use rule_table::Finding;
use std::alloc::{AllocError, Global};
use std::marker::Model;
use std::ops::Deref;
use std::rc::Rc;

/// A finding, which contracts see as such. A copy takes no memory but its own word: it shares the facts.
#[derive(Drop)]
pub struct SharedFinding {
    held: Rc<Finding>,
}

impl Model for SharedFinding {
    ghost use Rattle.rule_table.specs.Found.{Found};

    ghost Value = { Found };

    ghost view = { λ s. s.held.value };
}

impl SharedFinding {
    pub fn new(alloc: Global, finding: Finding) -> Result<SharedFinding, AllocError>
        ensures { IfOk result (λ shared. shared ≡ finding) }
    {
        match Rc::new(alloc, finding) {
            Ok(held) => Ok(SharedFinding { held }),
            Err(_) => Err(AllocError),
        }
    }

    /// The same finding. It fails only where 2^64 copies are held.
    pub fn clone(&self) -> Result<SharedFinding, AllocError>
        ensures { IfOk result (λ copy. copy ≡ self.now) }
    {
        Ok(SharedFinding {
            held: self.held.clone()?,
        })
    }
}

impl Deref for SharedFinding {
    type Target = Finding;

    ghost deref_gives = { λ shared finding. finding ≡ shared };

    fn deref(&self) -> &Finding
        ensures { result.now ≡ self.now }
    {
        self.held.as_ref()
    }
}

//! Ids of entities.
ghost use Rattle.std.specs.Prelude.{◌≡◌, IfOk, OnOk, Some, bytes_eq};
ghost use Rattle.std.specs.Ordering.{nat_cmp};
ghost use Rattle.std.specs.Cmp.{partial_equiv_from_equiv};
ghost use Rattle.std.specs.Cmp.Lexicographic.{slice_cmp, nat_list_eq_equiv, nat_list_cmp_total, texts_ties, texts_po};
ghost use Rattle.std.proofs.Common.{rules};
ghost use Rattle.rule_table.specs.EntityIds.{words_of};

use arrayvec::ArrayString;
use feed_values::Text;
use std::alloc::{AllocError, Global};
use std::cmp::Ordering;
use std::marker::Model;
use std::rc::Rc;

/// The words of an id. Short ones take no memory but that which copies of the id share.
#[derive(Drop)]
enum Words {
    Short(ArrayString<24>),
    Long(Text),
}

impl Words {
    fn of(alloc: Global, words: &str) -> Result<Words, AllocError>
        ensures { IfOk result (λ held. words_of held ≡ words.now) }
    {
        match ArrayString::from(words) {
            Ok(short) => Ok(Words::Short(short)),
            Err(_) => Ok(Words::Long(Text::of(alloc, words)?)),
        }
    }

    fn as_str(&self) -> &str
        ensures { result.now ≡ words_of self.now }
    {
        match self {
            Words::Short(short) => short.as_str(),
            Words::Long(text) => text.as_str(),
        }
    }
}

/// Words that copies share.
fn shared(alloc: Global, words: Words) -> Result<Rc<Words>, AllocError>
    ensures { IfOk result (λ held. held.value ≡ words) }
{
    match Rc::new(alloc, words) {
        Ok(words) => Ok(words),
        Err(_) => Err(AllocError),
    }
}

/// An entity's id. A copy takes no memory of its own. Ids are ordered by their bytes.
#[derive(Drop)]
pub struct EntityId {
    words: Rc<Words>,
}

impl Model for EntityId {
    ghost use Rattle.std.specs.Prelude.{List, ℕ};

    ghost Value = { List ℕ };

    ghost use Rattle.rule_table.specs.EntityIds.{words_of};

    ghost view = { λ i. words_of i.words.value };
}

impl EntityId {
    /// The id of these words.
    pub fn of(alloc: Global, words: &str) -> Result<EntityId, AllocError>
        ensures { IfOk result (λ id. id ≡ words.now) }
    {
        let words = Words::of(alloc, words)?;
        Ok(EntityId {
            words: shared(alloc, words)?,
        })
    }

    pub fn as_str(&self) -> &str
        ensures { result.now ≡ self.now }
    {
        self.words.as_ref().as_str()
    }

    /// Has these words in the place of its own, in the same memory where no copy holds it.
    pub fn set(&mut self, alloc: Global, words: &str) -> Result<(), AllocError>
        ensures { OnOk result (self.new ≡ words.now) }
    {
        let words = Words::of(alloc, words)?;
        match Rc::get_mut(&mut self.words) {
            Some(held) => {
                *held = words;
                Ok(())
            }
            None => {
                self.words = shared(alloc, words)?;
                Ok(())
            }
        }
    }

    /// The same id. It fails only where 2^64 copies are held.
    pub fn clone(&self) -> Result<EntityId, AllocError>
        ensures { IfOk result (λ copy. copy ≡ self.now) }
    {
        Ok(EntityId {
            words: self.words.clone()?,
        })
    }
}

impl PartialEq for EntityId {
    ghost eq = { bytes_eq };

    ghost laws = { partial_equiv_from_equiv nat_list_eq_equiv };

    fn eq(&self, other: &EntityId) -> bool {
        self.as_str() == other.as_str()
    }
}

impl Eq for EntityId {
    ghost laws = { nat_list_eq_equiv };
}

impl PartialOrd for EntityId {
    ghost partial_cmp = { λ x y. Some (slice_cmp nat_cmp x y) };

    ghost laws = { texts_po };

    fn partial_cmp(&self, other: &EntityId) -> Option<Ordering> {
        Some(self.cmp(other))
    }
}

impl Ord for EntityId {
    ghost cmp = { slice_cmp nat_cmp };

    ghost total = { nat_list_cmp_total };

    ghost matches_partial_cmp = { Prim.search rules };

    ghost matches_eq = { texts_ties };

    fn cmp(&self, other: &EntityId) -> Ordering {
        self.as_str().cmp(other.as_str())
    }
}

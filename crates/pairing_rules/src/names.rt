//! Numbers for texts.
ghost use Rattle.std.specs.Prelude.{◌≡◌, ◌+◌, ◌<◌, ◌^◌, ℕ, List, Some, None, IfOk, OnOk, OnErr, IfSome, option_copied, option_and_then, true};
ghost use Rattle.std.specs.Prelude.{bytes_eq, unwrap_or, if◌then◌else◌};
ghost use Rattle.std.specs.BTreeMap.{get_by_text};
ghost use Rattle.std.specs.String.{string_bytes};
ghost use Rattle.pairing_rules.specs.Numbers.{AreApart, is_named};

use std::alloc::{AllocError, Global};
use std::collections::BTreeMap;
use std::collections::btree_map::Entry;

/// The number of a text, which gets this one where it has none. The text is sought once.
#[tactic(auto, using(crate::proofs::Numbering::found_after))]
fn number_or(
    numbers: &mut BTreeMap<String, u32>,
    text: String,
    next: u32,
) -> Result<u32, AllocError>
    ensures number { IfOk result (λ n. n ≡ unwrap_or (get_by_text numbers.old (string_bytes text)) next) }
    ensures numbers { IfOk result (λ n. (other : List ℕ) → get_by_text numbers.new other ≡ (if bytes_eq (string_bytes text) other then Some n else get_by_text numbers.old other)) }
    ensures err { OnErr result ((other : List ℕ) → get_by_text numbers.new other ≡ get_by_text numbers.old other) }
{
    match numbers.entry(text)? {
        Entry::Vacant(entry) => {
            entry.insert(next);
            Ok(next)
        }
        Entry::Occupied(entry) => Ok(*entry.get()),
    }
}

/// Texts by number: each text that was given a number has one of its own from then on. Numbers go down: an ordered set is
/// searched from its front, and there the rows of a new text then stand.
#[derive(Drop)]
pub(crate) struct Names {
    numbers: BTreeMap<String, u32>,
    last: u32,
    ghost apart: { AreApart (get_by_text numbers) last },
}

impl Names {
    pub fn new(alloc: Global) -> Names
        ensures { (text : List ℕ) → get_by_text result.numbers text ≡ None }
    {
        Names {
            numbers: BTreeMap::new(alloc),
            last: u32::MAX,
        }
    }

    /// How many texts have one.
    pub fn count(&self) -> usize {
        self.numbers.len()
    }

    /// The number of a text.
    pub fn number(&self, text: &str) -> Option<u32>
        ensures { result ≡ get_by_text self.now.numbers text.now }
    {
        self.numbers.get(text).copied()
    }

    /// The number of a text, which gets one where it has none.
    pub fn give(&mut self, alloc: Global, text: &str) -> Result<u32, AllocError>
        ensures own { IfOk result (λ n. get_by_text self.new.numbers text.now ≡ Some n) }
        ensures kept { OnOk result ((other : List ℕ) (n : ℕ) → get_by_text self.old.numbers other ≡ Some n → get_by_text self.new.numbers other ≡ Some n) }
    {
        let Some(next) = self.last.checked_sub(1) else {
            return Err(AllocError);
        };
        let text = String::from_str(alloc, text)?;
        let number = number_or(&mut self.numbers, text, next)?;
        self.last = self.last.min(number);
        Ok(number)
    }

    /// The number of a text that may be given.
    pub fn number_given(&self, text: Option<&str>) -> Option<u32>
        ensures number { result ≡ option_and_then (get_by_text self.now.numbers) (option_copied text.entry) }
        ensures below { IfSome result (λ n. n + 1 < 2 ^ 32) }
    {
        let _last = self.last;
        match text {
            Some(text) => self.number(text),
            None => None,
        }
    }

    /// The same, where a text that is given gets a number.
    pub fn give_given(
        &mut self,
        alloc: Global,
        text: Option<&str>,
    ) -> Result<Option<u32>, AllocError>
        ensures number { IfOk result (λ n. option_and_then (get_by_text self.new.numbers) (option_copied text.entry) ≡ n) }
        ensures named { OnOk result (is_named (get_by_text self.new.numbers) (option_copied text.entry) ≡ true) }
        ensures kept { OnOk result ((other : List ℕ) (n : ℕ) → get_by_text self.old.numbers other ≡ Some n → get_by_text self.new.numbers other ≡ Some n) }
    {
        match text {
            Some(text) => Ok(Some(self.give(alloc, text)?)),
            None => Ok(None),
        }
    }
}

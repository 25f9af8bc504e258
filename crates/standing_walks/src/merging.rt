//! Lists in the order of rules, handed out as one.
ghost use Rattle.std.specs.Prelude.{◌≡◌, nat_le, option_copied};
ghost use Rattle.std.specs.Iterator.{YieldsFirstRef, item_count};
ghost use Rattle.standing_walks.specs.Merged.{first_in, merged, merged_four, number};

use crate::standing::Standing;
use std::marker::Model;

fn rule_number(standing: &Standing) -> u8
    ensures { result ≡ number standing.now }
{
    standing.finding().rule().number()
}

/// Whether of two standings that come first the left one is taken first: its rule's number isn't above the other's.
fn goes_first(left: &Standing, right: &Standing) -> bool
    ensures { result ≡ nat_le (number left.now) (number right.now) }
{
    rule_number(left) <= rule_number(right)
}

/// What is left to hand out of two lists, merged by the rules' numbers: of one number that of the left list first. Contracts see it as the
/// merged list. It takes no memory.
#[derive(Drop)]
pub struct TwoLists<'a> {
    left: &'a [Standing],
    right: &'a [Standing],
}

impl<'a> Model for TwoLists<'a> {
    ghost use Rattle.std.specs.Prelude.{List};
    ghost use Rattle.rule_history.specs.Standing as standing;
    ghost use Rattle.standing_walks.specs.Merged.{merged};

    ghost Value = { List standing.Standing };

    ghost view = { λ s. merged s.left.now s.right.now };
}

impl<'a> TwoLists<'a> {
    pub fn new(left: &'a [Standing], right: &'a [Standing]) -> TwoLists<'a>
        ensures { result ≡ merged left.now right.now }
    {
        TwoLists { left, right }
    }

    /// The standing that `next` hands out, which stays there.
    fn peek(&self) -> Option<&'a Standing>
        ensures { option_copied result ≡ first_in self.now }
    {
        match self.left.split_first() {
            None => {
                let (first, _) = self.right.split_first()?;
                Some(first)
            }
            Some((a, _)) => match self.right.split_first() {
                None => Some(a),
                Some((b, _)) => { if goes_first(a, b) { Some(a) } else { Some(b) } }
            },
        }
    }
}

impl<'a> Iterator for TwoLists<'a> {
    type Item = &'a Standing;

    ghost next_gives = { YieldsFirstRef (λ left. left) };

    ghost remaining = { item_count (λ left. left) };

    fn next(&mut self) -> Option<&'a Standing> {
        match self.left.split_first() {
            None => {
                let (first, others) = self.right.split_first()?;
                self.right = others;
                Some(first)
            }
            Some((a, left)) => match self.right.split_first() {
                None => {
                    self.left = left;
                    Some(a)
                }
                Some((b, right)) => {
                    if goes_first(a, b) {
                        self.left = left;
                        Some(a)
                    } else {
                        self.right = right;
                        Some(b)
                    }
                }
            },
        }
    }
}

/// What is left to hand out of four lists: the first two merged, the last two merged, and both of these. Contracts see it as the one
/// list. It takes no memory.
#[derive(Drop)]
pub struct FourLists<'a> {
    left: TwoLists<'a>,
    right: TwoLists<'a>,
}

impl<'a> Model for FourLists<'a> {
    ghost use Rattle.std.specs.Prelude.{List};
    ghost use Rattle.rule_history.specs.Standing as standing;
    ghost use Rattle.standing_walks.specs.Merged.{merged};

    ghost Value = { List standing.Standing };

    ghost view = { λ s. merged s.left s.right };
}

impl<'a> FourLists<'a> {
    pub fn new(
        first: &'a [Standing],
        second: &'a [Standing],
        third: &'a [Standing],
        fourth: &'a [Standing],
    ) -> FourLists<'a>
        ensures { result ≡ merged_four first.now second.now third.now fourth.now }
    {
        FourLists {
            left: TwoLists::new(first, second),
            right: TwoLists::new(third, fourth),
        }
    }
}

impl<'a> Iterator for FourLists<'a> {
    type Item = &'a Standing;

    ghost next_gives = { YieldsFirstRef (λ left. left) };

    ghost remaining = { item_count (λ left. left) };

    fn next(&mut self) -> Option<&'a Standing> {
        match self.left.peek() {
            None => self.right.next(),
            Some(a) => match self.right.peek() {
                None => self.left.next(),
                Some(b) => {
                    if goes_first(a, b) {
                        self.left.next()
                    } else {
                        self.right.next()
                    }
                }
            },
        }
    }
}

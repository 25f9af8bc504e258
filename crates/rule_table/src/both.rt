//! Two groups as one.
ghost use Rattle.std.specs.Prelude.{◌≡◌, ◌++◌};
ghost use Rattle.rule_table.specs.Groups.{NoneInBoth};

use crate::rules::Rules;

/// Two values that judge rules, of which none is one of both: the findings of the first, then those of the second.
#[derive(Drop)]
pub struct Both<A: Rules, B: Rules> {
    pub first: A,
    pub second: B,
    ghost apart: { NoneInBoth (A.rules first) (B.rules second) },
}

impl<A: Rules, B: Rules> Both<A, B> {
    pub fn new(first: A, second: B) -> Both<A, B>
        requires { NoneInBoth (A.rules first) (B.rules second) }
        ensures first { result.first ≡ first }
        ensures second { result.second ≡ second }
    {
        Both { first, second }
    }
}

impl<A: Rules, B: Rules> Rules for Both<A, B> {
    ghost rules = { λ s. A.rules s.first ++ B.rules s.second };
}

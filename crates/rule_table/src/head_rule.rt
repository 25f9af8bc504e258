//! Rules on the header of a feed.
ghost use Rattle.std.specs.Prelude.{◌≡◌, ◌+◌, ◌≤◌, ◌++◌, ℕ, List, length, OnOk, option_copied};
ghost use Rattle.std.specs.Option.{option_map};
ghost use Rattle.feed_values.specs.Views.{feed_header_value};
ghost use Rattle.rule_table.specs.Answers.{Heads};
ghost use Rattle.rule_table.specs.Found.{Found};
ghost use Rattle.rule_table.specs.Groups.{AreOf, IsOn, Once};
ghost use Rattle.rule_table.specs.GroupLaws.{both_own, both_once};

use crate::both::Both;
use crate::finding_list::FindingList;
use crate::rules::Rules;
use feed_values::FeedHeader;
use rt_outside::Steps;
use std::alloc::{AllocError, Global};
use std::sync::ledger::Ledger;

/// What judges the header of a feed. Its findings depend on the feed, the two last headers, whether the entities changed,
/// and the moment alone.
pub trait HeadRule: Rules {
    ghost findings: { Self → ℕ → Heads → List Found };

    /// Appends the findings, one rule after the other and those of one rule by slot, and ticks once for each rule. `before`
    /// is None, and `changed` false, where the feed has no snapshot before.
    ///
    /// After want of memory it has ticked at most that often, and `out` is of no further use.
    fn judge<L: Ledger>(
        &self,
        alloc: Global,
        feed: u8,
        now: &FeedHeader,
        before: Option<&FeedHeader>,
        changed: bool,
        moment: u64,
        out: &mut FindingList,
        steps: &mut Steps<L>,
    ) -> Result<(), AllocError>
        ensures found { OnOk result (out.new ≡ out.old ++ findings self.now feed
            (record { header = feed_header_value now.now; previous = option_map feed_header_value (option_copied before.entry); changed = changed; moment = moment })) }
        ensures ticked { OnOk result (steps.new ≡ steps.old + length (Self.rules self.now)) }
        ensures most { steps.new ≤ steps.old + length (Self.rules self.now) };

    /// Each finding is of one of the rules, and stands on the feed's header.
    ghost own: { (s : Self) (f : ℕ) (heads : Heads) → AreOf (Self.rules s) (IsOn f) (findings s f heads) };

    /// No rule and place comes twice.
    ghost once: { (s : Self) (f : ℕ) (heads : Heads) → Once (findings s f heads) };
}

impl<A: HeadRule, B: HeadRule> HeadRule for Both<A, B> {
    ghost findings = { λ s f heads. A.findings s.first f heads ++ B.findings s.second f heads };

    ghost own = { λ s f heads. both_own (A.rules s.first) (B.rules s.second) (IsOn f) (A.findings s.first f heads) (B.findings s.second f heads) (A.own s.first f heads) (B.own s.second f heads) };

    ghost once = { λ s f heads. both_once (A.rules s.first) (B.rules s.second) (IsOn f) (A.findings s.first f heads) (B.findings s.second f heads) s.apart (A.own s.first f heads) (B.own s.second f heads) (A.once s.first f heads) (B.once s.second f heads) };

    fn judge<L: Ledger>(
        &self,
        alloc: Global,
        feed: u8,
        now: &FeedHeader,
        before: Option<&FeedHeader>,
        changed: bool,
        moment: u64,
        out: &mut FindingList,
        steps: &mut Steps<L>,
    ) -> Result<(), AllocError> {
        self.first
            .judge(alloc, feed, now, before, changed, moment, out, steps)?;
        self.second
            .judge(alloc, feed, now, before, changed, moment, out, steps)
    }
}

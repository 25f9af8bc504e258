//! The rules of the table on headers.
ghost use Rattle.std.specs.Prelude.{◌≡◌, ◌+◌, ◌≤◌, Option, IfOk, OnOk, length, option_copied};
ghost use Rattle.std.specs.Option.{option_map};
ghost use Rattle.feed_values.specs.Views.{feed_header_value};
ghost use Rattle.timetable.specs.Timetables.{Tables};
ghost use Rattle.rule_table.specs.Answers.{Gathered};
ghost use Rattle.history_rules.specs.Rules.{head_rules};
ghost use Rattle.judging.specs.Whole.{header_found};

use feed_values::{FeedHeader, Items};
use history_rules::HeadGroup;
use rt_outside::Steps;
use rule_table::{Finding, FindingList, HeadRule};
use std::alloc::{AllocError, Global};
use std::sync::ledger::Ledger;

/// The group of rules on headers.
#[derive(Drop)]
pub struct HeaderRules {
    group: HeadGroup,
}

impl HeaderRules {
    pub fn new() -> HeaderRules {
        HeaderRules {
            group: HeadGroup::new(),
        }
    }

    /// The findings of all rules on the header of a feed, rule by rule in the order of their texts. It ticks once for each
    /// of the rules that are judged on headers. `before` is None, and `changed` false, where the feed has no snapshot before.
    ///
    /// They depend neither on the timetable nor on pairing rows and peaks. After want of memory it has ticked at most that often.
    pub fn judge<L: Ledger>(
        &self,
        alloc: Global,
        feed: u8,
        now: &FeedHeader,
        before: Option<&FeedHeader>,
        changed: bool,
        moment: u64,
        tests: &mut Steps<L>,
    ) -> Result<Items<Finding>, AllocError>
        ensures found { IfOk result (λ list. (t : Option Tables) (u : Gathered) → list ≡ header_found t u
            (record { header = feed_header_value now.now; previous = option_map feed_header_value (option_copied before.entry); changed = changed; moment = moment }) feed) }
        ensures ticked { OnOk result (tests.new ≡ tests.old + length head_rules) }
        ensures most { tests.new ≤ tests.old + length head_rules }
    {
        let mut out = FindingList::new(alloc);
        self.group
            .judge(alloc, feed, now, before, changed, moment, &mut out, tests)?;
        Ok(out.into_items())
    }
}

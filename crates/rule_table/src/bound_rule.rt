//! Rules on the timestamps of one entity.
ghost use Rattle.std.specs.Prelude.{◌≡◌, ◌+◌, ◌≤◌, ◌++◌, ◌↔◌, true, ℕ, ℤ, List, Option, length, OnOk, cond};
ghost use Rattle.feed_values.specs.declared.slot.Slot.{Slot};
ghost use Rattle.feed_values.specs.Schema.{Value};
ghost use Rattle.feed_values.specs.Messages as messages;
ghost use Rattle.feed_values.specs.Cells.{entity_cell};
ghost use Rattle.feed_values.specs.Views.{entity_value, natural};
ghost use Rattle.rule_table.specs.declared.rule.RuleId.{RuleId};
ghost use Rattle.rule_table.specs.declared.key.EntityKey.{EntityKey};
ghost use Rattle.rule_table.specs.declared.bound_rule.Bound.{Bound};
ghost use Rattle.rule_table.specs.Found.{Found};
ghost use Rattle.rule_table.specs.Groups.{AreOf, IsUnder, Once, has_rule};
ghost use Rattle.rule_table.specs.GroupLaws.{both_own, both_once, each_append};
ghost use Rattle.rule_table.specs.BothLaws.{both_exact};
ghost use Rattle.rule_table.specs.Bounds.{bound_at, IsAbove, StandsAt, AreHeld, IsStamp, AreAtStamps, is_timestamp, stamp_at};

use crate::both::Both;
use crate::finding_list::FindingList;
use crate::key::EntityKey;
use crate::rules::Rules;
use feed_values::{Entity, FeedHeader};
use rt_outside::Steps;
use std::alloc::{AllocError, Global};
use std::sync::ledger::Ledger;

/// What a timestamp may not pass: that of the header, or the moment by more than 60 seconds.
#[derive(Clone, Copy)]
pub enum Bound {
    Header,
    Moment,
}

/// What judges the timestamps of one entity. Its findings depend on the header's timestamp, the moment, the key and the
/// entity alone.
pub trait BoundRule: Rules {
    ghost findings: { Self → Option ℤ → ℕ → EntityKey → Value messages.entity → List Found };

    /// The bound of each rule.
    ghost bound: { Self → RuleId → Bound };

    /// Appends the findings, one rule after the other and those of one rule by slot and index, and ticks once for each rule.
    ///
    /// After want of memory it has ticked at most that often, and `out` is of no further use.
    fn judge<L: Ledger>(
        &self,
        alloc: Global,
        header: &FeedHeader,
        moment: u64,
        key: &EntityKey,
        entity: &Entity,
        out: &mut FindingList,
        steps: &mut Steps<L>,
    ) -> Result<(), AllocError>
        ensures found { OnOk result (out.new ≡ out.old ++ findings self.now (natural header.now.timestamp) moment key.now (entity_value entity.now)) }
        ensures ticked { OnOk result (steps.new ≡ steps.old + length (Self.rules self.now)) }
        ensures most { steps.new ≤ steps.old + length (Self.rules self.now) };

    /// Each finding is of one of the rules, and stands under the key.
    ghost own: { (s : Self) (t : Option ℤ) (m : ℕ) (k : EntityKey) (e : Value messages.entity) → AreOf (Self.rules s) (IsUnder k) (findings s t m k e) };

    /// No rule and place comes twice.
    ghost once: { (s : Self) (t : Option ℤ) (m : ℕ) (k : EntityKey) (e : Value messages.entity) → Once (findings s t m k e) };

    /// A rule stands at a timestamp exactly where it is given and above the rule's bound.
    ghost exact: { (s : Self) (t : Option ℤ) (m : ℕ) (k : EntityKey) (e : Value messages.entity) (rule : RuleId) (slot : Slot) → AreHeld t m e slot → is_timestamp slot ≡ true
        → has_rule (Self.rules s) rule ≡ true → StandsAt (findings s t m k e) rule (stamp_at k slot) ↔ IsAbove (entity_cell e slot 0) (bound_at (bound s rule) t m) };

    /// And nothing stands elsewhere.
    ghost at: { (s : Self) (t : Option ℤ) (m : ℕ) (k : EntityKey) (e : Value messages.entity) → AreAtStamps k (findings s t m k e) };
}

impl<A: BoundRule, B: BoundRule> BoundRule for Both<A, B> {
    ghost findings = { λ s t m k e. A.findings s.first t m k e ++ B.findings s.second t m k e };

    ghost bound = { λ s rule. cond (has_rule (A.rules s.first) rule) (A.bound s.first rule) (B.bound s.second rule) };

    ghost own = { λ s t m k e. both_own (A.rules s.first) (B.rules s.second) (IsUnder k) (A.findings s.first t m k e) (B.findings s.second t m k e) (A.own s.first t m k e) (B.own s.second t m k e) };

    ghost once = { λ s t m k e. both_once (A.rules s.first) (B.rules s.second) (IsUnder k) (A.findings s.first t m k e) (B.findings s.second t m k e) s.apart (A.own s.first t m k e) (B.own s.second t m k e) (A.once s.first t m k e) (B.once s.second t m k e) };

    ghost exact = { λ s t m k e rule slot held is has. both_exact (A.rules s.first) (B.rules s.second) s.apart (IsUnder k) (A.findings s.first t m k e) (B.findings s.second t m k e) (A.own s.first t m k e) (B.own s.second t m k e)
        rule (stamp_at k slot) (entity_cell e slot 0) (A.bound s.first rule) (B.bound s.second rule) t m (A.exact s.first t m k e rule slot held is) (B.exact s.second t m k e rule slot held is) has };

    ghost at = { λ s t m k e. each_append (λ f. IsStamp k f.place) (A.findings s.first t m k e) (B.findings s.second t m k e) (A.at s.first t m k e) (B.at s.second t m k e) };

    fn judge<L: Ledger>(
        &self,
        alloc: Global,
        header: &FeedHeader,
        moment: u64,
        key: &EntityKey,
        entity: &Entity,
        out: &mut FindingList,
        steps: &mut Steps<L>,
    ) -> Result<(), AllocError> {
        self.first
            .judge(alloc, header, moment, key, entity, out, steps)?;
        self.second
            .judge(alloc, header, moment, key, entity, out, steps)
    }
}

//! Rules on what a vehicle told before.
ghost use Rattle.std.specs.Prelude.{◌≡◌, ◌+◌, ◌≤◌, ◌++◌, List, length, OnOk};
ghost use Rattle.feed_values.specs.Schema.{Value};
ghost use Rattle.feed_values.specs.Messages as messages;
ghost use Rattle.feed_values.specs.Views.{entity_value};
ghost use Rattle.rule_table.specs.declared.key.EntityKey.{EntityKey};
ghost use Rattle.rule_table.specs.Found.{Found};
ghost use Rattle.rule_table.specs.Groups.{AreOf, IsUnder, Once};
ghost use Rattle.rule_table.specs.GroupLaws.{both_own, both_once};
ghost use Rattle.rule_table.specs.CitedLaws.{both_same};
ghost use Rattle.rule_table.specs.Peaks.{PeakMap, SamePeak};

use crate::both::Both;
use crate::finding_list::FindingList;
use crate::key::EntityKey;
use crate::peak_view::PeakView;
use crate::rules::Rules;
use feed_values::Entity;
use rt_outside::Steps;
use std::alloc::{AllocError, Global};
use std::sync::ledger::Ledger;

/// What judges one entity by itself and against the peak of its vehicle.
pub trait PeakRule: Rules {
    ghost findings: { Self → PeakMap → EntityKey → Value messages.entity → List Found };

    /// Appends the findings, one rule after the other and those of one rule by slot and index, and ticks once for each rule.
    ///
    /// After want of memory it has ticked at most that often, and `out` is of no further use.
    fn judge<V: PeakView, L: Ledger>(
        &self,
        alloc: Global,
        view: &V,
        key: &EntityKey,
        entity: &Entity,
        out: &mut FindingList,
        steps: &mut Steps<L>,
    ) -> Result<(), AllocError>
        ensures found { OnOk result (out.new ≡ out.old ++ findings self.now (V.peaks view.now) key.now (entity_value entity.now)) }
        ensures ticked { OnOk result (steps.new ≡ steps.old + length (Self.rules self.now)) }
        ensures most { steps.new ≤ steps.old + length (Self.rules self.now) };

    /// Peaks that are equal for the entity's vehicle in its feed give equal findings.
    ghost same: { (s : Self) (u v : PeakMap) (k : EntityKey) (e : Value messages.entity) → SamePeak u v k e → findings s u k e ≡ findings s v k e };

    /// Each finding is of one of the rules, and stands under the key.
    ghost own: { (s : Self) (u : PeakMap) (k : EntityKey) (e : Value messages.entity) → AreOf (Self.rules s) (IsUnder k) (findings s u k e) };

    /// No rule and place comes twice.
    ghost once: { (s : Self) (u : PeakMap) (k : EntityKey) (e : Value messages.entity) → Once (findings s u k e) };
}

impl<A: PeakRule, B: PeakRule> PeakRule for Both<A, B> {
    ghost findings = { λ s u k e. A.findings s.first u k e ++ B.findings s.second u k e };

    ghost same = { λ s u v k e h. both_same (A.same s.first u v k e h) (B.same s.second u v k e h) };

    ghost own = { λ s u k e. both_own (A.rules s.first) (B.rules s.second) (IsUnder k) (A.findings s.first u k e) (B.findings s.second u k e) (A.own s.first u k e) (B.own s.second u k e) };

    ghost once = { λ s u k e. both_once (A.rules s.first) (B.rules s.second) (IsUnder k) (A.findings s.first u k e) (B.findings s.second u k e) s.apart (A.own s.first u k e) (B.own s.second u k e) (A.once s.first u k e) (B.once s.second u k e) };

    fn judge<V: PeakView, L: Ledger>(
        &self,
        alloc: Global,
        view: &V,
        key: &EntityKey,
        entity: &Entity,
        out: &mut FindingList,
        steps: &mut Steps<L>,
    ) -> Result<(), AllocError> {
        self.first.judge(alloc, view, key, entity, out, steps)?;
        self.second.judge(alloc, view, key, entity, out, steps)
    }
}

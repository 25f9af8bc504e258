//! Rules on trip updates and vehicle positions together.
ghost use Rattle.std.specs.Prelude.{◌≡◌, ◌+◌, ◌≤◌, ◌++◌, [], List, length, OnOk};
ghost use Rattle.feed_values.specs.Schema.{Value};
ghost use Rattle.feed_values.specs.Messages as messages;
ghost use Rattle.feed_values.specs.Views.{entity_value};
ghost use Rattle.rule_table.specs.declared.key.EntityKey.{EntityKey};
ghost use Rattle.rule_table.specs.Found.{Found};
ghost use Rattle.rule_table.specs.Groups.{AreOf, IsUnder, Once};
ghost use Rattle.rule_table.specs.GroupLaws.{both_own, both_once};
ghost use Rattle.rule_table.specs.BothLaws.{both_none};
ghost use Rattle.rule_table.specs.CitedLaws.{both_same};
ghost use Rattle.rule_table.specs.Pairs.{PairRow, rows_of};
ghost use Rattle.rule_table.specs.PairAgree.{Agree};

use crate::both::Both;
use crate::finding_list::FindingList;
use crate::key::EntityKey;
use crate::pair_view::PairView;
use crate::rules::Rules;
use feed_values::Entity;
use rt_outside::Steps;
use std::alloc::{AllocError, Global};
use std::sync::ledger::Ledger;

/// What judges one entity by itself and against the pairing rows of all entities.
pub trait PairRule: Rules {
    ghost findings: { Self → List PairRow → EntityKey → Value messages.entity → List Found };

    /// Appends the findings, one rule after the other and those of one rule by slot and index, and ticks once for each rule.
    ///
    /// After want of memory it has ticked at most that often, and `out` is of no further use.
    fn judge<P: PairView, L: Ledger>(
        &self,
        alloc: Global,
        view: &P,
        key: &EntityKey,
        entity: &Entity,
        out: &mut FindingList,
        steps: &mut Steps<L>,
    ) -> Result<(), AllocError>
        ensures found { OnOk result (out.new ≡ out.old ++ findings self.now (P.rows view.now) key.now (entity_value entity.now)) }
        ensures ticked { OnOk result (steps.new ≡ steps.old + length (Self.rules self.now)) }
        ensures most { steps.new ≤ steps.old + length (Self.rules self.now) };

    /// Rows that answer alike on the ids of the entity's own rows, and on which kinds have rows, give equal findings.
    ghost agree: { (s : Self) (u v : List PairRow) (k : EntityKey) (e : Value messages.entity) → Agree u v k e → findings s u k e ≡ findings s v k e };

    /// An entity without a pairing row has no findings.
    ghost none: { (s : Self) (u : List PairRow) (k : EntityKey) (e : Value messages.entity) → rows_of k e ≡ [] → findings s u k e ≡ [] };

    /// Each finding is of one of the rules, and stands under the key.
    ghost own: { (s : Self) (u : List PairRow) (k : EntityKey) (e : Value messages.entity) → AreOf (Self.rules s) (IsUnder k) (findings s u k e) };

    /// No rule and place comes twice.
    ghost once: { (s : Self) (u : List PairRow) (k : EntityKey) (e : Value messages.entity) → Once (findings s u k e) };
}

impl<A: PairRule, B: PairRule> PairRule for Both<A, B> {
    ghost findings = { λ s u k e. A.findings s.first u k e ++ B.findings s.second u k e };

    ghost agree = { λ s u v k e h. both_same (A.agree s.first u v k e h) (B.agree s.second u v k e h) };

    ghost none = { λ s u k e h. both_none (A.none s.first u k e h) (B.none s.second u k e h) };

    ghost own = { λ s u k e. both_own (A.rules s.first) (B.rules s.second) (IsUnder k) (A.findings s.first u k e) (B.findings s.second u k e) (A.own s.first u k e) (B.own s.second u k e) };

    ghost once = { λ s u k e. both_once (A.rules s.first) (B.rules s.second) (IsUnder k) (A.findings s.first u k e) (B.findings s.second u k e) s.apart (A.own s.first u k e) (B.own s.second u k e) (A.once s.first u k e) (B.once s.second u k e) };

    fn judge<P: PairView, L: Ledger>(
        &self,
        alloc: Global,
        view: &P,
        key: &EntityKey,
        entity: &Entity,
        out: &mut FindingList,
        steps: &mut Steps<L>,
    ) -> Result<(), AllocError> {
        self.first.judge(alloc, view, key, entity, out, steps)?;
        self.second.judge(alloc, view, key, entity, out, steps)
    }
}

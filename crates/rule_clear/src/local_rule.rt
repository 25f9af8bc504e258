//! Rules on one entity and the timetable.
ghost use Rattle.std.specs.Prelude.{◌≡◌, ◌+◌, ◌≤◌, ◌++◌, List, Option, length, OnOk};
ghost use Rattle.std.specs.Option.{option_map};
ghost use Rattle.feed_values.specs.Schema.{Value};
ghost use Rattle.feed_values.specs.Messages as messages;
ghost use Rattle.feed_values.specs.Cells.{cell_value};
ghost use Rattle.feed_values.specs.Views.{entity_value};
ghost use Rattle.timetable.specs.Timetables.{Tables};
ghost use Rattle.rule_table.specs.declared.key.EntityKey.{EntityKey};
ghost use Rattle.rule_table.specs.Asked.{ask_value};
ghost use Rattle.rule_history.specs.Answered.{tables_of, local_answer};
ghost use Rattle.rule_table.specs.Found.{Found};
ghost use Rattle.rule_table.specs.Groups.{AreOf, IsUnder, Once};
ghost use Rattle.rule_table.specs.GroupLaws.{both_own, both_once};

use feed_values::{CellRef, Entity, Path, field_at};
use rt_outside::Steps;
use rule_history::table_answer;
use rule_table::{Answers, AskRef, Both, EntityKey, FindingList, Rules};
use std::alloc::{AllocError, Global};
use std::sync::ledger::Ledger;
use timetable::Timetable;

/// What judges one entity by itself and against the timetable. Its findings depend on the timetable, the key and the entity
/// alone, since these are the parameters of `findings`.
pub trait LocalRule: Rules {
    ghost findings: { Self → Option Tables → EntityKey → Value messages.entity → List Found };

    /// Appends the findings, one rule after the other and those of one rule by slot and index, and ticks once for each rule.
    ///
    /// After want of memory it has ticked at most that often, and `out` is of no further use.
    fn judge<L: Ledger>(
        &self,
        alloc: Global,
        table: &Timetable,
        key: &EntityKey,
        entity: &Entity,
        out: &mut FindingList,
        steps: &mut Steps<L>,
    ) -> Result<(), AllocError>
        ensures found { OnOk result (out.new ≡ out.old ++ findings self.now (tables_of table.now) key.now (entity_value entity.now)) }
        ensures ticked { OnOk result (steps.new ≡ steps.old + length (Self.rules self.now)) }
        ensures most { steps.new ≤ steps.old + length (Self.rules self.now) };

    /// Each finding is of one of the rules, and stands under the key.
    ghost own: { (s : Self) (t : Option Tables) (k : EntityKey) (e : Value messages.entity) → AreOf (Self.rules s) (IsUnder k) (findings s t k e) };

    /// No rule and place comes twice.
    ghost once: { (s : Self) (t : Option Tables) (k : EntityKey) (e : Value messages.entity) → Once (findings s t k e) };
}

impl<A: LocalRule, B: LocalRule> LocalRule for Both<A, B> {
    ghost findings = { λ s t k e. A.findings s.first t k e ++ B.findings s.second t k e };

    ghost own = { λ s t k e. both_own (A.rules s.first) (B.rules s.second) (IsUnder k) (A.findings s.first t k e) (B.findings s.second t k e) (A.own s.first t k e) (B.own s.second t k e) };

    ghost once = { λ s t k e. both_once (A.rules s.first) (B.rules s.second) (IsUnder k) (A.findings s.first t k e) (B.findings s.second t k e) s.apart (A.own s.first t k e) (B.own s.second t k e) (A.once s.first t k e) (B.once s.second t k e) };

    fn judge<L: Ledger>(
        &self,
        alloc: Global,
        table: &Timetable,
        key: &EntityKey,
        entity: &Entity,
        out: &mut FindingList,
        steps: &mut Steps<L>,
    ) -> Result<(), AllocError> {
        self.first.judge(alloc, table, key, entity, out, steps)?;
        self.second.judge(alloc, table, key, entity, out, steps)
    }
}

/// An entity under its key, with the timetable.
#[derive(Drop)]
pub struct LocalAnswers<'a> {
    pub table: &'a Timetable,
    pub key: &'a EntityKey,
    pub entity: &'a Entity,
}

impl Answers for LocalAnswers<'_> {
    ghost answers = { λ s. local_answer (tables_of s.table.now) s.key.now (entity_value s.entity.now) };

    fn answer<'a>(&'a self, ask: AskRef<'_>) -> Option<CellRef<'a>> {
        match ask {
            AskRef::Cell(path) => Some(field_at(self.entity, path)),
            AskRef::Occurrence => Some(CellRef::Number(self.key.occurrence as i128)),
            _ => table_answer(self.table, ask),
        }
    }

    fn cell<'a>(&'a self, path: Path) -> Option<CellRef<'a>> {
        Some(field_at(self.entity, path))
    }
}

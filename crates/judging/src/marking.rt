//! Where rules break at an entity, and the finding there. A mark takes little memory, so that an entity of very many findings
//! can be judged without holding them.
ghost use Rattle.std.specs.Prelude.{◌≡◌, ◌+◌, ◌≤◌, List, IfOk, OnOk, None, false, length, option_copied};
ghost use Rattle.std.specs.Option.{option_map};
ghost use Rattle.feed_values.specs.Schema.{Value};
ghost use Rattle.feed_values.specs.Messages as messages;
ghost use Rattle.feed_values.specs.Views.{entity_value, feed_header_value};
ghost use Rattle.rule_table.specs.Answers.{Gathered, Heads};
ghost use Rattle.rule_history.specs.Answered.{tables_of};
ghost use Rattle.rule_table.specs.Judged.{found_all};
ghost use Rattle.rule_table.specs.Marked.{marked, marked_at};
ghost use Rattle.rule_table.specs.declared.key.EntityKey.{EntityKey};
ghost use Rattle.judging.specs.Judged.{first_answer, first_heads};
ghost use Rattle.judging.specs.Ruled.{entity_rules};
ghost use Rattle.judging.specs.Whole.{rows_alone, entity_found, whole_answer};

use crate::entity_answers::EntityAnswers;
use feed_values::{Entity, FeedHeader, Items};
use history_rules::HeadAnswers;
use pairing_rules::PairAnswers;
use rt_outside::Steps;
use rule_clear::{Clear, LocalAnswers};
use rule_table::{EntityKey, Finding, FindingList, Mark, PairView, RuleId, judge_mark, mark_rules};
use std::alloc::{AllocError, Global};
use std::sync::ledger::Ledger;
use timetable::Timetable;

// Those of the table that have a place at an entity.
const ENTITY_RULES: &[RuleId] = &[
    RuleId::E001,
    RuleId::E002,
    RuleId::E003,
    RuleId::E004,
    RuleId::E006,
    RuleId::E009,
    RuleId::E011,
    RuleId::E012,
    RuleId::E013,
    RuleId::E015,
    RuleId::E016,
    RuleId::E019,
    RuleId::E020,
    RuleId::E021,
    RuleId::E022,
    RuleId::E023,
    RuleId::E024,
    RuleId::E025,
    RuleId::E030,
    RuleId::E031,
    RuleId::E032,
    RuleId::E033,
    RuleId::E034,
    RuleId::E035,
    RuleId::E036,
    RuleId::E037,
    RuleId::E039,
    RuleId::E040,
    RuleId::E041,
    RuleId::E042,
    RuleId::E043,
    RuleId::E044,
    RuleId::E045,
    RuleId::E046,
    RuleId::E047,
    RuleId::E050,
    RuleId::E051,
    RuleId::E052,
    RuleId::W001,
    RuleId::W002,
    RuleId::W003,
    RuleId::W005,
    RuleId::W006,
    RuleId::W009,
    RuleId::X001,
    RuleId::X002,
];

// Those of them that ask the timetable for nothing.
const BESIDE_TIMETABLE: &[RuleId] = &[
    RuleId::E001,
    RuleId::E002,
    RuleId::E012,
    RuleId::E020,
    RuleId::E021,
    RuleId::E022,
    RuleId::E025,
    RuleId::E031,
    RuleId::E032,
    RuleId::E033,
    RuleId::E036,
    RuleId::E037,
    RuleId::E039,
    RuleId::E040,
    RuleId::E041,
    RuleId::E042,
    RuleId::E043,
    RuleId::E044,
    RuleId::E047,
    RuleId::E050,
    RuleId::E052,
    RuleId::W001,
    RuleId::W002,
    RuleId::W003,
    RuleId::W006,
    RuleId::W009,
    RuleId::X001,
    RuleId::X002,
];

/// The rules that are to be judged at an entity with a timetable: all that have a place there, or those that don't ask it where it is
/// absent, since the others find nothing then.
fn rules_with(table: &Timetable) -> &'static [RuleId]
    ensures found { (u : Gathered) (heads : Heads) (key : EntityKey) (e : Value messages.entity)
        → found_all result.now (whole_answer (tables_of table.now) u heads key e) key e ≡ entity_found (tables_of table.now) u heads key e }
    ensures within { length result.now ≤ length entity_rules }
{
    if table.is_present() {
        ENTITY_RULES
    } else {
        BESIDE_TIMETABLE
    }
}

/// Ticks for the rules at an entity beyond so many, which are known to find nothing: as if they were judged.
fn tick_others<L: Ledger>(judged: usize, tests: &mut Steps<L>)
    requires { judged ≤ length entity_rules }
    ensures { tests.new + judged ≡ tests.old + length entity_rules }
{
    for _ in judged..ENTITY_RULES.len() {
        tests.tick();
    }
}

/// What the entities of the first snapshot of a feed are judged beside.
#[derive(Clone, Copy)]
pub struct Setting<'a, P: PairView> {
    pub table: &'a Timetable,
    /// The pairing rows of all entities.
    pub view: &'a P,
    pub header: &'a FeedHeader,
    /// POSIX time in seconds.
    pub moment: u64,
}

/// What all rules ask at an entity of the first snapshot of a feed, before which no header stands.
fn answers_at<'a, P: PairView>(
    setting: &Setting<'a, P>,
    key: &'a EntityKey,
    entity: &'a Entity,
) -> EntityAnswers<'a, P>
    ensures table { result.local.table.now ≡ setting.now.table.now }
    ensures view { result.pairs.view.now ≡ setting.now.view.now }
    ensures header { result.heads.now.now ≡ setting.now.header.now }
    ensures before { result.heads.before ≡ None }
    ensures changed { result.heads.changed ≡ false }
    ensures moment { result.heads.moment ≡ setting.now.moment }
    ensures key { result.local.key.now ≡ key.now }
    ensures entity { result.local.entity.now ≡ entity.now }
    ensures answers { whole_answer (tables_of result.local.table.now) (rows_alone (P.rows result.pairs.view.now))
        (record { header = feed_header_value result.heads.now.now; previous = option_map feed_header_value (option_copied result.heads.before); changed = result.heads.changed; moment = result.heads.moment })
        result.local.key.now (entity_value result.local.entity.now)
        ≡ first_answer (tables_of setting.now.table.now) (P.rows setting.now.view.now) (feed_header_value setting.now.header.now) setting.now.moment key.now (entity_value entity.now) }
{
    EntityAnswers {
        local: LocalAnswers {
            table: setting.table,
            key,
            entity,
        },
        heads: HeadAnswers {
            now: setting.header,
            before: None,
            changed: false,
            moment: setting.moment,
        },
        pairs: PairAnswers {
            view: setting.view,
            key,
            entity,
        },
    }
}

/// Marks where all rules break at an entity of the first snapshot of a feed, rule by rule in the order of their texts, and each
/// by slot and index: what they mark are the findings there. It ticks once for each rule that has a place at entities. After want of
/// memory it has ticked at most that often.
pub fn marks_at<P: PairView, L: Ledger>(
    alloc: Global,
    setting: &Setting<'_, P>,
    key: &EntityKey,
    entity: &Entity,
    tests: &mut Steps<L>,
) -> Result<Vec<Mark>, AllocError>
    ensures marked { IfOk result (λ marks. marked (first_answer (tables_of setting.now.table.now) (P.rows setting.now.view.now) (feed_header_value setting.now.header.now) setting.now.moment key.now (entity_value entity.now)) key.now marks.items
        ≡ entity_found (tables_of setting.now.table.now) (rows_alone (P.rows setting.now.view.now)) (first_heads (feed_header_value setting.now.header.now) setting.now.moment) key.now (entity_value entity.now)) }
    ensures ticked { OnOk result (tests.new ≡ tests.old + length entity_rules) }
    ensures most { tests.new ≤ tests.old + length entity_rules }
{
    let answers = answers_at(setting, key, entity);
    let clear = Clear::of(setting.table, entity);
    let mut marks = Vec::new(alloc);
    let rules = rules_with(setting.table);
    mark_rules(&answers, &clear, rules, key, entity, &mut marks, tests)?;
    tick_others(rules.len(), tests);
    Ok(marks)
}

/// The finding of a mark, or none where its rule doesn't break there.
pub fn finding_at<P: PairView>(
    alloc: Global,
    setting: &Setting<'_, P>,
    key: &EntityKey,
    entity: &Entity,
    mark: Mark,
) -> Result<Items<Finding>, AllocError>
    ensures { IfOk result (λ list. list ≡ marked_at (first_answer (tables_of setting.now.table.now) (P.rows setting.now.view.now) (feed_header_value setting.now.header.now) setting.now.moment key.now (entity_value entity.now)) key.now mark) }
{
    let answers = answers_at(setting, key, entity);
    let mut found = FindingList::new(alloc);
    judge_mark(alloc, &answers, key, mark, &mut found)?;
    Ok(found.into_items())
}

//! Where rules break at an entity of a first snapshot.
ghost use Rattle.std.specs.Prelude.{◌≡◌, ◌+◌, ◌≤◌, IfOk, OnOk, length};
ghost use Rattle.feed_values.specs.Views.{entity_value, feed_header_value};
ghost use Rattle.rule_history.specs.Answered.{tables_of};
ghost use Rattle.rule_table.specs.Marked.{marked};
ghost use Rattle.judging.specs.Judged.{first_answer, first_heads};
ghost use Rattle.judging.specs.Ruled.{entity_rules};
ghost use Rattle.judging.specs.Whole.{rows_alone, entity_found};

use crate::quiet::is_quiet;
use feed_values::Entity;
use judging::{Setting, marks_at};
use rt_outside::Steps;
use rule_table::{EntityKey, Mark, PairView};
use std::alloc::{AllocError, Global};
use std::sync::ledger::Ledger;

// How many rules have a place at entities.
const ENTITY_RULES: u32 = 46;

/// Ticks once for each rule that has a place at entities.
fn tick_all<L: Ledger>(tests: &mut Steps<L>)
    ensures { tests.new ≡ tests.old + length entity_rules }
{
    for _ in 0..ENTITY_RULES {
        tests.tick();
    }
}

/// Marks where all rules break at an entity of the first snapshot of a feed, as `marks_at` of judging does and in the same order, without judging the
/// rules at a vehicle position at which a look at its fields shows that none breaks. A rule counts as judged there. After want of memory it has ticked
/// at most once for each rule.
pub fn marks_of<P: PairView, L: Ledger>(
    alloc: Global,
    setting: &Setting<'_, P>,
    key: &EntityKey,
    entity: &Entity,
    tests: &mut Steps<L>,
) -> Result<Vec<Mark>, AllocError>
    ensures marked { IfOk result (λ marks. marked (first_answer (tables_of setting.now.table.now) (P.rows setting.now.view.now) (feed_header_value setting.now.header.now) setting.now.moment key.now (entity_value entity.now)) key.now marks.items
        ≡ entity_found (tables_of setting.now.table.now) (rows_alone (P.rows setting.now.view.now)) (first_heads (feed_header_value setting.now.header.now) setting.now.moment) key.now (entity_value entity.now)) }
    ensures ticked { OnOk result (tests.new ≡ tests.old + length entity_rules) }
    ensures most { tests.new ≤ tests.old + length entity_rules }
{
    if !setting.table.is_present() && is_quiet(setting, key, entity) {
        tick_all(tests);
        let none = Vec::new(alloc);
        return Ok(none);
    }
    marks_at(alloc, setting, key, entity, tests)
}

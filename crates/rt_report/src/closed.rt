//! The line of a rule that stands no more at a place.
ghost use Rattle.std.specs.Prelude.{◌≡◌, IfOk};
ghost use Rattle.feed_values.specs.Cells.{path_text};
ghost use Rattle.serde_json.specs.View.{view};
ghost use Rattle.rule_table.specs.Rules.{rule_name};
ghost use Rattle.snapshot_lines.specs.Lines.{line_of};
ghost use Rattle.rt_report.specs.Findings.{closed_data, head_closed, entity_closed};

use feed_values::{Path, Slot};
use rule_table::{EntityKey, Place, RuleId};
use serde_json::{Value, json};
use snapshot_lines::line_of;
use std::alloc::{AllocError, Global};

fn head_value(alloc: Global, rule: RuleId, feed: u8, slot: Slot) -> Result<Value, AllocError>
    ensures { IfOk result (λ value. view value ≡ head_closed feed (path_text slot 0) (rule_name rule)) }
{
    let path = Path { slot, index: 0 };
    let path = path.text(alloc)?;
    json!(in alloc; {
        "feed": feed,
        "line": "closed",
        "path": path.as_str(),
        "rule": rule.name(),
    })
}

fn entity_value(
    alloc: Global,
    rule: RuleId,
    key: &EntityKey,
    path: Path,
) -> Result<Value, AllocError>
    ensures { IfOk result (λ value. view value ≡ entity_closed key.now.feed key.now.id key.now.occurrence (path_text path.slot path.index) (rule_name rule)) }
{
    let path = path.text(alloc)?;
    json!(in alloc; {
        "feed": key.feed,
        "id": key.id.as_str(),
        "line": "closed",
        "occurrence": key.occurrence,
        "path": path.as_str(),
        "rule": rule.name(),
    })
}

fn closed_value(alloc: Global, rule: RuleId, place: &Place) -> Result<Value, AllocError>
    ensures { IfOk result (λ value. view value ≡ closed_data rule place.now) }
{
    match place {
        Place::Head(feed, slot) => head_value(alloc, rule, *feed, *slot),
        Place::Entity(key, path) => entity_value(alloc, rule, key, *path),
    }
}

/// The line of a rule that stood at a place before a snapshot, and stands there no more.
pub fn closed_line(alloc: Global, rule: RuleId, place: &Place) -> Result<Vec<u8>, AllocError>
    ensures { IfOk result (λ bytes. bytes.items ≡ line_of (closed_data rule place.now)) }
{
    let value = closed_value(alloc, rule, place)?;
    line_of(alloc, &value)
}

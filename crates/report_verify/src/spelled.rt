//! The finding that a line spells.
ghost use Rattle.std.specs.Prelude.{◌≡◌, IfOk, option_map, true};
ghost use Rattle.std.specs.List.{list_all};
ghost use Rattle.serde_json.specs.View.{view};
ghost use Rattle.rule_table.specs.Asked.{in_range};
ghost use Rattle.report_verify.specs.Spelled.{is_printed, spelled_in, tree_of};

use crate::said::{Said, said_of};
use rt_report::finding_text;
use serde_json::Value;
use std::alloc::{AllocError, Global};

/// The tree of a line, which is UTF-8 and JSON.
pub fn tree_of(alloc: Global, line: &[u8]) -> Result<Option<Value>, AllocError>
    ensures { IfOk result (λ tree. option_map view tree ≡ tree_of line.now) }
{
    match Value::from_slice(alloc, line) {
        Ok(tree) => Ok(Some(tree)),
        Err(error) => {
            if error.is_memory() {
                Err(AllocError)
            } else {
                Ok(None)
            }
        }
    }
}

/// Whether a line is the text of what was said.
fn is_printed(alloc: Global, said: &Said, line: &[u8]) -> Result<bool, AllocError>
    requires { list_all (λ f. in_range f.value) said.now.facts ≡ true }
    ensures { IfOk result (λ same. same ≡ is_printed line.now said.now) }
{
    let facts = said.facts.as_slice();
    let text = finding_text(alloc, said.kind, said.rule, &said.place, facts, said.since)?;
    Ok(text.as_slice() == line)
}

/// The finding that a line with this tree spells.
pub fn spelled_in(alloc: Global, tree: &Value, line: &[u8]) -> Result<Option<Said>, AllocError>
    ensures { IfOk result (λ said. said ≡ spelled_in line.now (view tree.now)) }
{
    let Some(said) = said_of(alloc, tree)? else {
        return Ok(None);
    };
    if is_printed(alloc, &said, line)? {
        Ok(Some(said))
    } else {
        Ok(None)
    }
}

//! Places.
ghost use Rattle.std.specs.Prelude.{◌≡◌, IfOk};
ghost use Rattle.serde_json.specs.View.{view};
ghost use Rattle.report_verify.specs.Said.{feed_at, occurrence_at, path_at, place_of, placed};

use crate::members::{count_at, text_at};
use feed_values::Path;
use finding_names::{path_named, u8_of, u32_of};
use rule_table::{EntityId, EntityKey, Place};
use serde_json::Value;
use std::alloc::{AllocError, Global};

fn feed_at(finding: &Value) -> Option<u8>
    ensures { result ≡ feed_at (view finding.now) }
{
    u8_of(count_at(finding, "feed")?)
}

fn occurrence_at(finding: &Value) -> Option<u32>
    ensures { result ≡ occurrence_at (view finding.now) }
{
    u32_of(count_at(finding, "occurrence")?)
}

fn path_at(finding: &Value) -> Option<Path>
    ensures { result ≡ path_at (view finding.now) }
{
    path_named(text_at(finding, "path")?)
}

/// The place of this feed and path: one on a header where there is no `id`.
fn placed(alloc: Global, feed: u8, path: Path, finding: &Value) -> Result<Option<Place>, AllocError>
    ensures { IfOk result (λ place. place ≡ placed feed path (view finding.now)) }
{
    if finding.get("id").is_none() {
        return Ok(Some(Place::Head(feed, path.slot)));
    }
    let Some(occurrence) = occurrence_at(finding) else {
        return Ok(None);
    };
    let Some(text) = text_at(finding, "id") else {
        return Ok(None);
    };
    let key = EntityKey {
        feed,
        id: EntityId::of(alloc, text)?,
        occurrence,
    };
    Ok(Some(Place::Entity(key, path)))
}

/// The place that a tree says.
pub fn place_of(alloc: Global, finding: &Value) -> Result<Option<Place>, AllocError>
    ensures { IfOk result (λ place. place ≡ place_of (view finding.now)) }
{
    let Some(feed) = feed_at(finding) else {
        return Ok(None);
    };
    let Some(path) = path_at(finding) else {
        return Ok(None);
    };
    placed(alloc, feed, path, finding)
}

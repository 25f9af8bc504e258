//! The alerts of an engine that are in force.
ghost use Rattle.std.specs.Prelude.{◌≡◌, List, Option, IfOk};
ghost use Rattle.std.specs.List.{flat_map};
ghost use Rattle.timetable.specs.Timetables.{Tables};
ghost use Rattle.rule_history.specs.History.{Snapshot};
ghost use Rattle.engine_laws.specs.Standings.{Matches};
ghost use Rattle.run_rows.specs.follow_engine.Engines.{engine_data};
ghost use Rattle.run_rows.specs.follow_engine.Entities.{entities_after, entities_held};
ghost use Rattle.run_alerts.specs.Alerts.{alerts_text};
ghost use Rattle.run_alerts.specs.Lines.{alert_text};

use crate::lines::{push_sum, with_alert};
use alert_view::{AlertView, Query};
use rule_table::EntityKey;
use run_rows::Engine;
use std::alloc::{AllocError, Global};

/// The lines of the alerts that are in force at a moment, as POSIX time in seconds, for whom is asked for, and behind them the line that
/// sums up.
pub fn alerts_text(
    alloc: Global,
    moment: u64,
    query: &Query,
    engine: &Engine,
) -> Result<Vec<u8>, AllocError>
    ensures text { IfOk result (λ text. text.items ≡ alerts_text moment query.now (entities_held engine.now.feeds)) }
    ensures after { (t : Option Tables) (h : List Snapshot) → Matches (engine_data engine.now) t h → entities_held engine.now.feeds ≡ entities_after h }
{
    let view = AlertView::new(alloc, engine)?;
    let in_force = view.in_force(alloc, moment, query)?;
    let keys = in_force.as_slice();
    let count = keys.len() as u64;
    let mut text = keys_text(alloc, keys)?;
    push_sum(alloc, count, view.next_change(moment), &mut text)?;
    Ok(text)
}

// The lines of alerts whose entities have these keys.
fn keys_text(alloc: Global, keys: &[EntityKey]) -> Result<Vec<u8>, AllocError>
    ensures { IfOk result (λ text. text.items ≡ flat_map alert_text keys.now) }
{
    let mut text = Vec::new(alloc);
    for key in keys {
        text = with_alert(text, key)?;
    }
    Ok(text)
}

//! All that was told, handed out in the order of findings.
ghost use Rattle.std.specs.Prelude.{◌≡◌, ◌++◌, map, OnOk};
ghost use Rattle.std.specs.List.{flat_map};
ghost use Rattle.rule_table.specs.Groups.{Each};
ghost use Rattle.rule_table.specs.Order.{key_cmp};
ghost use Rattle.rule_table.specs.Rises.{Rises};
ghost use Rattle.entity_parts.specs.standing_walks.Changes.{all_opened, all_closed};
ghost use Rattle.entity_parts.specs.part_laws.FourParts.{spots_in_order, standings_in_order};
ghost use Rattle.touched_entities.specs.Told.{feed_closed, feed_opened};

use crate::told::Told;
use crate::tolds::{FeedTold, Tolds};
use entity_parts::{Closed, Opened};
use feed_values::Items;
use rule_table::EntityKey;
use std::alloc::AllocError;
use std::collections::BTreeMap;

/// Appends what was told at entities, in the order of their keys and of each rule by rule.
fn hand_out_entities(
    entities: BTreeMap<EntityKey, Told>,
    opens: &mut Items<Opened>,
    closes: &mut Items<Closed>,
) -> Result<(), AllocError>
    ensures opens { OnOk result (all_opened opens.new ≡ all_opened opens.old ++ flat_map (λ e. standings_in_order e.1.opened) entities.entries) }
    ensures closes { OnOk result (all_closed closes.new ≡ all_closed closes.old ++ flat_map (λ e. spots_in_order e.1.closed) entities.entries) }
{
    for (_, told) in entities {
        told.hand_out_by_rule(opens, closes)?;
    }
    Ok(())
}

fn hand_out_feed(
    feed: FeedTold,
    opens: &mut Items<Opened>,
    closes: &mut Items<Closed>,
) -> Result<(), AllocError>
    ensures ordered { OnOk result (Rises key_cmp (map (λ e. e.0) feed.entities)) }
    ensures opens { OnOk result (all_opened opens.new ≡ all_opened opens.old ++ feed_opened feed) }
    ensures closes { OnOk result (all_closed closes.new ≡ all_closed closes.old ++ feed_closed feed) }
{
    let FeedTold { header, entities } = feed;
    let _count = entities.len();
    header.hand_out(opens, closes)?;
    hand_out_entities(entities, opens, closes)?;
    Ok(())
}

/// Appends all that was told, feed by feed: on the header, then at the entities in the order of their keys, and of each rule by rule.
///
/// The one error is want of memory; what it appends to is of no further use then.
pub fn hand_out(
    tolds: Tolds,
    opens: &mut Items<Opened>,
    closes: &mut Items<Closed>,
) -> Result<(), AllocError>
    ensures ordered { OnOk result (Each (λ t. Rises key_cmp (map (λ e. e.0) t.entities)) tolds) }
    ensures opens { OnOk result (all_opened opens.new ≡ all_opened opens.old ++ flat_map feed_opened tolds) }
    ensures closes { OnOk result (all_closed closes.new ≡ all_closed closes.old ++ flat_map feed_closed tolds) }
{
    let Tolds { feeds } = tolds;
    for feed in feeds {
        hand_out_feed(feed, opens, closes)?;
    }
    Ok(())
}

//! The entities that another timetable concerns.
ghost use Rattle.std.specs.Prelude.{◌≡◌, ◌++◌, ◌∷◌, [], List, Option, length, IfOk, OnOk};
ghost use Rattle.timetable.specs.Timetables.{Tables};
ghost use Rattle.feed_values.specs.Views.{entity_value};
ghost use Rattle.rule_history.specs.Answered.{tables_of};
ghost use Rattle.rule_history.specs.History.{Snapshot};
ghost use Rattle.engine_laws.specs.Standings.{Matches};
ghost use Rattle.follow_engine.specs.Engines.{engine_data};
ghost use Rattle.follow_engine.specs.Retabled.{AreKeysOf, FindAlikeBeside};
ghost use Rattle.timetable_exchange.specs.Retested.{entities_after, entities_held, keys_of_differing};

use feed_values::{Entity, Items};
use follow_engine::Engine;
use rule_table::EntityKey;
use std::alloc::{AllocError, Global};
use timetable::Timetable;
use timetable_agree::Comparison;

/// The keys of the entities for which two timetables don't agree, in their order, and how many entities there are in all.
#[derive(Drop)]
pub(crate) struct Touched {
    pub keys: Items<EntityKey>,
    pub entities: u64,
}

// Appends the key of an entity, if the timetables don't agree for it.
fn put_touched(
    alloc: Global,
    comparison: &mut Comparison<'_>,
    key: &EntityKey,
    entity: &Entity,
    keys: &mut Items<EntityKey>,
) -> Result<(), AllocError>
    ensures before { comparison.new.before.now ≡ comparison.old.before.now }
    ensures after { comparison.new.after.now ≡ comparison.old.after.now }
    ensures keys { OnOk result (keys.new ≡ keys.old ++ keys_of_differing (tables_of comparison.old.before.now) (tables_of comparison.old.after.now) ((key.now, entity_value entity.now) ∷ [])) }
{
    if !comparison.agrees(alloc, entity)? {
        keys.push(key.clone()?)?;
    }
    Ok(())
}

/// Compares the timetable of an engine with another one, for each entity that it holds.
pub(crate) fn touch(
    alloc: Global,
    engine: &Engine,
    table: &Timetable,
) -> Result<Touched, AllocError>
    ensures keys { IfOk result (λ r. r.keys ≡ keys_of_differing (tables_of engine.now.table) (tables_of table.now) (entities_held engine.now.feeds)) }
    ensures named { IfOk result (λ r. AreKeysOf (entities_held engine.now.feeds) r.keys) }
    ensures others { IfOk result (λ r. FindAlikeBeside r.keys (tables_of engine.now.table) (tables_of table.now) (entities_held engine.now.feeds)) }
    ensures entities { IfOk result (λ r. r.entities ≡ length (entities_held engine.now.feeds)) }
    ensures after { (t : Option Tables) (h : List Snapshot) → Matches (engine_data engine.now) t h → entities_held engine.now.feeds ≡ entities_after h }
{
    let old = engine.table();
    old.stops_differ();
    table.stops_differ();
    let mut comparison = Comparison::new(alloc, old, table);
    let mut keys = Items::new(alloc);
    let mut entities = 0;
    for (key, entity) in engine.entities() {
        put_touched(alloc, &mut comparison, key, entity, &mut keys)?;
        entities += 1;
    }
    Ok(Touched { keys, entities })
}

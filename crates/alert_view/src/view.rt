//! The alerts of an engine.
ghost use Rattle.std.specs.Prelude.{◌≡◌, ◌++◌, ◌∷◌, [], List, Option, IfOk, OnOk};
ghost use Rattle.timetable.specs.Timetables.{Tables};
ghost use Rattle.feed_values.specs.Views.{entity_value};
ghost use Rattle.rule_history.specs.History.{Snapshot};
ghost use Rattle.engine_laws.specs.Standings.{Matches};
ghost use Rattle.follow_engine.specs.Engines.{engine_data};
ghost use Rattle.follow_engine.specs.Entities.{entities_after, entities_held};
ghost use Rattle.alert_terms.specs.InForce.{alerts_in, in_force, next_change};

use alert_terms::{AlertTerms, Query};
use feed_values::{Entity, Items};
use follow_engine::Engine;
use rule_table::EntityKey;
use std::alloc::{AllocError, Global};
use std::marker::Model;

/// The alerts of the last snapshots of all feeds, in the order of their keys. Contracts see it as the list of them.
#[derive(Drop)]
pub struct AlertView<'a> {
    alerts: Items<AlertTerms<'a>>,
}

impl<'a> Model for AlertView<'a> {
    ghost use Rattle.std.specs.Prelude.{List};
    ghost use Rattle.alert_terms.specs.InForce.{Terms};

    ghost Value = { List Terms };

    ghost view = { λ s. s.alerts };
}

impl<'a> AlertView<'a> {
    /// Takes the alerts of the entities that an engine holds, which are those of every history that it matches.
    pub fn new(alloc: Global, engine: &'a Engine) -> Result<AlertView<'a>, AllocError>
        ensures held { IfOk result (λ view. view ≡ alerts_in (entities_held engine.now.feeds)) }
        ensures after { (t : Option Tables) (h : List Snapshot) → Matches (engine_data engine.now) t h → entities_held engine.now.feeds ≡ entities_after h }
    {
        let mut alerts = Items::new(alloc);
        for (key, entity) in engine.entities() {
            push_alert(&mut alerts, key, entity)?;
        }
        Ok(AlertView { alerts })
    }

    /// The keys of the alerts that are in force at a moment, as POSIX time in seconds, for whom is asked for, in their order.
    pub fn in_force(
        &self,
        alloc: Global,
        moment: u64,
        query: &Query,
    ) -> Result<Items<EntityKey>, AllocError>
        ensures { IfOk result (λ keys. keys ≡ in_force moment query.now self.now) }
    {
        let mut keys = Items::new(alloc);
        for alert in self.alerts.as_slice() {
            if alert.is_in_force(moment, query) {
                keys.push(alert.key().clone()?)?;
            }
        }
        Ok(keys)
    }

    /// The next moment at which what is in force can change, whoever is asked for: the least start or end after `moment` of all
    /// periods of all alerts, as POSIX time in seconds. It takes no memory.
    pub fn next_change(&self, moment: u64) -> Option<u64>
        ensures { result ≡ next_change moment self.now }
    {
        let mut next = None;
        for alert in self.alerts.as_slice() {
            next = alert.next_change(moment, next);
        }
        next
    }
}

// Adds the alert of an entity, if it has one.
fn push_alert<'a>(
    alerts: &mut Items<AlertTerms<'a>>,
    key: &'a EntityKey,
    entity: &'a Entity,
) -> Result<(), AllocError>
    ensures { OnOk result (alerts.new ≡ alerts.old ++ alerts_in ((key.now, entity_value entity.now) ∷ [])) }
{
    match &entity.alert {
        Some(alert) => Ok(alerts.push(AlertTerms::new(key, alert))?),
        None => Ok(()),
    }
}

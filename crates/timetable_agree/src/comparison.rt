//! Two timetables that are compared for many entities.
ghost use Rattle.std.specs.Prelude.{◌≡◌, IfOk, map, option_copied};
ghost use Rattle.std.proofs.Props.{props};
ghost use Rattle.std.specs.BTreeMap.{get_by_text};
ghost use Rattle.std.specs.List.{list_all};
ghost use Rattle.feed_values.specs.Views.{entity_value, entity_selector_value};
ghost use Rattle.timetable.specs.Lookups.{tables_in};
ghost use Rattle.rule_history.specs.Answered.{tables_of};
ghost use Rattle.timetable_agree.specs.Alike.{same_trip};
ghost use Rattle.timetable_agree.specs.Named.{named_value, namings, by_selector};
ghost use Rattle.timetable_agree.specs.Agree.{agree, same_named_trip};
ghost use Rattle.timetable_agree.specs.Compared.{AreCompared};

use crate::agreeing::others_agree;
use crate::named::{Named, of_selector, of_update, of_vehicle, selectors};
use crate::trips::same_trip;
use feed_values::{Boxed, Entity, EntitySelector};
use std::alloc::{AllocError, Global};
use std::collections::BTreeMap;
use timetable::Timetable;

/// Two timetables, with what was found of each trip that was compared: a trip is compared once, however many entities name it.
///
/// Ids of trips are put in order and not hashed, so that no ids that somebody chose take longer than others.
#[derive(Drop)]
pub struct Comparison<'a> {
    before: &'a Timetable,
    after: &'a Timetable,
    compared: BTreeMap<String, bool>,
    ghost known: { AreCompared (tables_in before.now) (tables_in after.now) (get_by_text compared) } by { Prim.hlevel props },
}

impl<'a> Comparison<'a> {
    /// The timetable of before and the one of after, of which no trip was compared yet.
    pub fn new(alloc: Global, before: &'a Timetable, after: &'a Timetable) -> Comparison<'a>
        ensures before { result.before.now ≡ before.now }
        ensures after { result.after.now ≡ after.now }
    {
        Comparison {
            before,
            after,
            compared: BTreeMap::new(alloc),
        }
    }

    fn remember(&mut self, alloc: Global, id: &str, same: bool) -> Result<(), AllocError>
        requires { same ≡ same_trip (tables_in self.old.before.now) (tables_in self.old.after.now) id.now }
        ensures before { self.new.before.now ≡ self.old.before.now }
        ensures after { self.new.after.now ≡ self.old.after.now }
    {
        let id = String::from_str(alloc, id)?;
        self.compared.insert(id, same)?;
        Ok(())
    }

    fn remembered(&self, id: &str) -> Option<bool>
        ensures { result ≡ get_by_text self.now.compared id.now }
    {
        self.compared.get(id).copied()
    }

    fn compare(&mut self, alloc: Global, id: &str) -> Result<bool, AllocError>
        ensures same { IfOk result (λ same. same ≡ same_trip (tables_in self.old.before.now) (tables_in self.old.after.now) id.now) }
        ensures before { self.new.before.now ≡ self.old.before.now }
        ensures after { self.new.after.now ≡ self.old.after.now }
    {
        let same = same_trip(self.before, self.after, id);
        self.remember(alloc, id, same)?;
        Ok(same)
    }

    fn same_trip(&mut self, alloc: Global, id: &str) -> Result<bool, AllocError>
        ensures same { IfOk result (λ same. same ≡ same_trip (tables_in self.old.before.now) (tables_in self.old.after.now) id.now) }
        ensures before { self.new.before.now ≡ self.old.before.now }
        ensures after { self.new.after.now ≡ self.old.after.now }
    {
        match self.remembered(id) {
            Some(same) => Ok(same),
            None => self.compare(alloc, id),
        }
    }

    fn same_named_trip(&mut self, alloc: Global, named: Named<'_>) -> Result<bool, AllocError>
        ensures same { IfOk result (λ same. same ≡ same_named_trip (tables_in self.old.before.now) (tables_in self.old.after.now) (named_value named.entry)) }
        ensures before { self.new.before.now ≡ self.old.before.now }
        ensures after { self.new.after.now ≡ self.old.after.now }
    {
        match named.trip {
            None => Ok(true),
            Some(id) => self.same_trip(alloc, id.as_str()),
        }
    }

    fn same_selected_trips(
        &mut self,
        alloc: Global,
        selectors: &[Boxed<EntitySelector>],
    ) -> Result<bool, AllocError>
        ensures same { IfOk result (λ same. same ≡ list_all (λ s. same_named_trip (tables_in self.old.before.now) (tables_in self.old.after.now) (by_selector (entity_selector_value s))) selectors.now) }
        ensures before { self.new.before.now ≡ self.old.before.now }
        ensures after { self.new.after.now ≡ self.old.after.now }
    {
        for selector in selectors {
            if !self.same_named_trip(alloc, of_selector(selector))? {
                return Ok(false);
            }
        }
        Ok(true)
    }

    fn trips_agree(&mut self, alloc: Global, entity: &Entity) -> Result<bool, AllocError>
        ensures same { IfOk result (λ same. same ≡ list_all (same_named_trip (tables_in self.old.before.now) (tables_in self.old.after.now)) (namings (entity_value entity.now))) }
        ensures before { self.new.before.now ≡ self.old.before.now }
        ensures after { self.new.after.now ≡ self.old.after.now }
    {
        if !self.same_named_trip(alloc, of_update(entity))? {
            return Ok(false);
        }
        if !self.same_named_trip(alloc, of_vehicle(entity))? {
            return Ok(false);
        }
        self.same_selected_trips(alloc, selectors(entity))
    }

    /// Whether the timetables agree for an entity, as `agrees` tells it. What was found of a trip is remembered.
    pub fn agrees(&mut self, alloc: Global, entity: &Entity) -> Result<bool, AllocError>
        ensures agree { IfOk result (λ same. same ≡ agree (tables_of self.old.before.now) (tables_of self.old.after.now) (entity_value entity.now)) }
        ensures before { self.new.before.now ≡ self.old.before.now }
        ensures after { self.new.after.now ≡ self.old.after.now }
    {
        match (self.before.is_present(), self.after.is_present()) {
            (false, false) => Ok(true),
            (true, true) => {
                if !others_agree(self.before, self.after, entity) {
                    return Ok(false);
                }
                self.trips_agree(alloc, entity)
            }
            _ => Ok(false),
        }
    }
}

//! Alerts, as far as they are looked at.
ghost use Rattle.std.specs.Prelude.{◌≡◌, map, nat_lt};
ghost use Rattle.std.specs.List.{filter, list_any};
ghost use Rattle.feed_values.specs.Views.{alert_value, entity_selector_value, time_range_value};
ghost use Rattle.alert_terms.specs.InForce.{bounds_in, concerns, earliest, is_active, is_in_force, is_open, period_of, selector_of, selects, terms_of};

use crate::period::Period;
use crate::query::Query;
use feed_values::{Alert, Boxed, EntitySelector, TimeRange};
use rule_table::EntityKey;
use std::marker::Model;

/// An alert, and the key of its entity. Contracts see of it its key, when it is shown and whom it concerns.
#[derive(Drop)]
pub struct AlertTerms<'a> {
    key: &'a EntityKey,
    alert: &'a Alert,
}

impl<'a> Model for AlertTerms<'a> {
    ghost use Rattle.feed_values.specs.Views.{alert_value};
    ghost use Rattle.alert_terms.specs.InForce.{Terms, terms_of};

    ghost Value = { Terms };

    ghost view = { λ s. terms_of s.key.now (alert_value s.alert.now) };
}

impl<'a> AlertTerms<'a> {
    pub fn new(key: &'a EntityKey, alert: &'a Alert) -> AlertTerms<'a>
        ensures { result ≡ terms_of key.now (alert_value alert.now) }
    {
        AlertTerms { key, alert }
    }

    /// That of the alert's entity.
    pub fn key(&self) -> &EntityKey
        ensures { result.now ≡ self.now.key }
    {
        self.key
    }

    /// Whether it is shown at a moment and concerns whom is asked for.
    pub fn is_in_force(&self, moment: u64, query: &Query) -> bool
        ensures { result ≡ is_in_force moment query.now self.now }
    {
        is_active(moment, self.alert.active_period.as_slice())
            && concerns(query, self.alert.informed_entity.as_slice())
    }

    /// The earliest of a moment that was found before, if one was, and of the starts and ends that come after `moment`.
    pub fn next_change(&self, moment: u64, before: Option<u64>) -> Option<u64>
        ensures { result ≡ earliest before (filter (nat_lt moment) (bounds_in self.now)) }
    {
        let mut next = before;
        for range in self.alert.active_period.as_slice() {
            next = Period::of(range).next_change(moment, next);
        }
        next
    }
}

fn is_active(moment: u64, ranges: &[TimeRange]) -> bool
    ensures { result ≡ is_active moment (map period_of (map time_range_value ranges.now)) }
{
    match ranges {
        [] => true,
        _ => is_any_open(moment, ranges),
    }
}

fn is_any_open(moment: u64, ranges: &[TimeRange]) -> bool
    ensures { result ≡ list_any (λ range. is_open moment (period_of (time_range_value range))) ranges.now }
{
    ranges.iter().any(|range| is_open(moment, range))
}

fn is_open(moment: u64, range: &TimeRange) -> bool
    ensures { result ≡ is_open moment (period_of (time_range_value range.now)) }
{
    Period::of(range).is_open(moment)
}

fn concerns(query: &Query, selectors: &[Boxed<EntitySelector>]) -> bool
    ensures { result ≡ concerns query.now (map selector_of (map entity_selector_value selectors.now)) }
{
    selects_any(query, selectors)
}

fn selects_any(query: &Query, selectors: &[Boxed<EntitySelector>]) -> bool
    ensures { result ≡ list_any (λ selector. selects query.now (selector_of (entity_selector_value selector))) selectors.now }
{
    selectors.iter().any(|selector| query.selects(selector))
}

//! Which update is of which stop.
ghost use Rattle.std.specs.Prelude.{◌≡◌, ◌<◌, ◌^◌, ℕ, All, IfOk, IfSome, length, Some, None, cond};
ghost use Rattle.propagation.specs.Matching.{AreMatchers, AreMatches, AreOrdered, is_at, matcher, next_from};
ghost use Rattle.std.specs.List.{slice_index_or as get_or};

use crate::stops::Stops;
use feed_values::StopTimeUpdate;
use std::alloc::{AllocError, Global};

/// The stop of each update, and the update of each stop.
#[derive(Drop)]
pub(crate) struct Matching {
    places: Vec<Option<usize>>,
    matchers: Vec<Option<u32>>,
    ghost agree: { AreMatchers places.items matchers.items },
}

impl Matching {
    ghost use Rattle.propagation.specs.Stops.{stops_in};

    /// Matches updates with the stops of a trip.
    pub fn new(
        alloc: Global,
        stops: &Stops<'_>,
        updates: &[StopTimeUpdate],
    ) -> Result<Matching, AllocError>
        requires { length updates.now < 2 ^ 32 }
        ensures matches { IfOk result (λ m. AreMatches (stops_in stops.now) updates.now m.places.items) }
        ensures size { IfOk result (λ m. length m.matchers.items ≡ length (stops_in stops.now)) }
    {
        let places = Matching::places_of(alloc, stops, updates)?;
        let matchers = matchers(alloc, stops.len(), places.as_slice())?;
        Ok(Matching { places, matchers })
    }

    // The stops that updates match, in the order of the updates.
    fn places_of(
        alloc: Global,
        stops: &Stops<'_>,
        updates: &[StopTimeUpdate],
    ) -> Result<Vec<Option<usize>>, AllocError>
        ensures { IfOk result (λ matches. AreMatches (stops_in stops.now) updates.now matches.items) }
    {
        let last = stops.last_places(alloc)?;
        let mut places = Vec::new(alloc);
        let mut from = 0;
        for update in updates {
            let place = stops.first_named(&last, update, from);
            from = next_from(place, from);
            places.push(place)?;
        }
        Ok(places)
    }

    /// For each update the place of the stop that it matches.
    pub fn places(&self) -> &[Option<usize>]
        ensures { result.now ≡ self.now.places.items }
    {
        self.places.as_slice()
    }

    /// The index of the update that matches the stop at a place.
    pub fn matcher(&self, place: usize) -> Option<u32>
        requires { place < length self.now.matchers.items }
        ensures { result ≡ matcher self.now.places.items place }
    {
        self.matchers[place]
    }
}

// For each of so many stops the update that matches it.
fn matchers(
    alloc: Global,
    count: usize,
    places: &[Option<usize>],
) -> Result<Vec<Option<u32>>, AllocError>
    requires few { length places.now < 2 ^ 32 }
    requires ordered { AreOrdered places.now }
    requires within { All (λ m. IfSome m (λ place. place < count)) places.now }
    ensures size { IfOk result (λ matchers. length matchers.items ≡ count) }
    ensures agree { IfOk result (λ matchers. AreMatchers places.now matchers.items) }
{
    let mut matchers = vec![in alloc; None; count]?;
    for (index, place) in places.iter().enumerate() {
        note(&mut matchers, index as u32, *place);
    }
    Ok(matchers)
}

// The first place that the next update may match.
fn next_from(place: Option<usize>, from: usize) -> usize
    requires { IfSome place (λ p. p < 2 ^ 63) }
    ensures { result ≡ next_from place from }
{
    match place {
        Some(place) => place + 1,
        None => from,
    }
}

// Notes at a place the update that matches the stop there.
fn note(matchers: &mut Vec<Option<u32>>, index: u32, place: Option<usize>)
    requires { IfSome place (λ p. p < length matchers.old.items) }
    ensures size { length matchers.new.items ≡ length matchers.old.items }
    ensures noted { (other : ℕ) → get_or matchers.new.items other None ≡ cond (is_at other place) (Some index) (get_or matchers.old.items other None) }
{
    if let Some(place) = place {
        matchers[place] = Some(index);
    }
}

//! The lines of one rule.
ghost use Rattle.std.specs.Prelude.{◌≡◌, ◌++◌, ◌∷◌, [], OnOk, List};
ghost use Rattle.rule_tally.specs.Tallies.{Told, is_last, kept, marked_entity, met, met_entity, tally_of, told, with_closing, with_finding, with_line, with_opening};

use crate::counting::one_more;
use crate::first_line::{Behind, FirstLine};
use crate::names::Names;
use crate::telling::Telling;
use feed_values::{Items, Text};
use std::alloc::{AllocError, Global};

/// What the lines of one rule come to.
#[derive(Drop)]
pub struct Tally {
    /// How many lines are findings or openings.
    pub findings: u64,
    /// How many are closings.
    pub closings: u64,
    /// How many stretches of one entity the lines of `check` have: as many as entities, where those of one stand together.
    pub stretches: u64,
    /// The entity of the last of them.
    pub last: Option<Text>,
    /// The entities at which the rule opened, each marked.
    pub entities: Names,
    /// The places at which it opened or closed, marked where it stands.
    pub places: Names,
    /// The first line that is a finding or an opening.
    pub first: Option<FirstLine>,
}

impl Tally {
    /// That of no lines.
    pub fn new(alloc: Global) -> Tally
        ensures { result ≡ tally_of [] }
    {
        Tally {
            findings: 0,
            closings: 0,
            stretches: 0,
            last: None,
            entities: Names::new(alloc),
            places: Names::new(alloc),
            first: None,
        }
    }

    /// Takes one line more, which tells this of the rule, and stands behind this. After a fault it is no tally of
    /// these lines.
    pub fn take(
        &mut self,
        alloc: Global,
        telling: &Telling,
        behind: Behind,
        line: &[u8],
    ) -> Result<(), AllocError>
        ensures { OnOk result ((before : List Told) → self.old ≡ tally_of before → self.new ≡ tally_of (before ++ told telling.now behind line.now ∷ [])) }
    {
        self.add(alloc, telling, behind, line)
    }

    fn add(
        &mut self,
        alloc: Global,
        telling: &Telling,
        behind: Behind,
        line: &[u8],
    ) -> Result<(), AllocError>
        ensures { OnOk result (self.new ≡ with_line self.old telling.now behind line.now) }
    {
        match telling {
            Telling::Finding(entity) => self.find(alloc, entity, behind, line),
            Telling::Opened(entity, place) => self.open(alloc, entity, place, behind, line),
            Telling::Closed(place) => self.close(alloc, place),
        }
    }

    fn find(
        &mut self,
        alloc: Global,
        entity: &Option<Text>,
        behind: Behind,
        line: &[u8],
    ) -> Result<(), AllocError>
        ensures { OnOk result (self.new ≡ with_finding self.old entity.now behind line.now) }
    {
        self.findings = one_more(self.findings)?;
        if let Some(entity) = entity {
            self.meet(alloc, entity)?;
        }
        keep(alloc, &mut self.first, behind, line)
    }

    fn open(
        &mut self,
        alloc: Global,
        entity: &Option<Text>,
        place: &Text,
        behind: Behind,
        line: &[u8],
    ) -> Result<(), AllocError>
        ensures { OnOk result (self.new ≡ with_opening self.old entity.now place.now behind line.now) }
    {
        self.findings = one_more(self.findings)?;
        mark_given(alloc, &mut self.entities, entity)?;
        self.places.mark(alloc, place.as_str(), true)?;
        keep(alloc, &mut self.first, behind, line)
    }

    fn close(&mut self, alloc: Global, place: &Text) -> Result<(), AllocError>
        ensures { OnOk result (self.new ≡ with_closing self.old place.now) }
    {
        self.closings = one_more(self.closings)?;
        self.places.mark(alloc, place.as_str(), false)
    }

    // Meets an entity of `check` behind the last one.
    fn meet(&mut self, alloc: Global, entity: &Text) -> Result<(), AllocError>
        ensures { OnOk result (self.new ≡ met self.old entity.now) }
    {
        if is_last(&self.last, entity) {
            return Ok(());
        }
        self.stretches = one_more(self.stretches)?;
        self.last = Some(entity.clone(alloc)?);
        Ok(())
    }
}

fn is_last(last: &Option<Text>, entity: &Text) -> bool
    ensures { result ≡ is_last last.now entity.now }
{
    match last {
        Some(last) => *last == *entity,
        None => false,
    }
}

fn mark_given(alloc: Global, names: &mut Names, name: &Option<Text>) -> Result<(), AllocError>
    ensures { OnOk result (names.new ≡ marked_entity names.old name.now) }
{
    match name {
        Some(name) => names.mark(alloc, name.as_str(), true),
        None => Ok(()),
    }
}

// Keeps the first line.
fn keep(
    alloc: Global,
    first: &mut Option<FirstLine>,
    behind: Behind,
    line: &[u8],
) -> Result<(), AllocError>
    ensures { OnOk result (first.new ≡ kept first.old behind line.now) }
{
    if first.is_none() {
        *first = Some(FirstLine {
            behind,
            line: Items::from_vec(Vec::from_slice(alloc, line)?),
        });
    }
    Ok(())
}

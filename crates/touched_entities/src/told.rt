//! What opened and closed at one place.
ghost use Rattle.std.specs.Prelude.{◌≡◌, ◌++◌, OnOk};
ghost use Rattle.entity_parts.specs.standing_walks.Changes.{all_opened, all_closed};
ghost use Rattle.entity_parts.specs.standing_walks.Walked.{IsInOrder};
ghost use Rattle.entity_parts.specs.part_laws.FourParts.{spots_in_order, standings_in_order};
ghost use Rattle.touched_entities.specs.Told.{no_told, plus, told_between};

use crate::ordering::{append, rule_by_rule};
use entity_parts::{Closed, Opened, Standing, put_closed, put_opened};
use feed_values::Items;
use std::alloc::{AllocError, Global};
use std::marker::Model;

/// What opened and what closed at a header or an entity, in the order in which it was put. Contracts see the findings that opened, each with the
/// number of the snapshot since which its rule stands at its place, and the rules and places that closed.
#[derive(Drop)]
pub struct Told {
    opened: Items<Opened>,
    closed: Items<Closed>,
}

impl Model for Told {
    ghost use Rattle.touched_entities.specs.Told as told;
    ghost use Rattle.entity_parts.specs.standing_walks.Changes.{all_opened, all_closed};

    ghost Value = { told.Told };

    ghost view = { λ s. record { opened = all_opened s.opened; closed = all_closed s.closed } };
}

impl Told {
    /// Nothing. It takes no memory.
    pub fn new(alloc: Global) -> Told
        ensures { result ≡ no_told }
    {
        Told {
            opened: Items::new(alloc),
            closed: Items::new(alloc),
        }
    }

    /// Puts in what opened and closed between a list and the one in its place.
    ///
    /// The one error is want of memory; what was put in is of no further use then.
    pub fn put(&mut self, old: &[Standing], new: &[Standing]) -> Result<(), AllocError>
        requires old { IsInOrder old.now }
        requires new { IsInOrder new.now }
        ensures { OnOk result (self.new ≡ plus self.old (told_between old.now new.now)) }
    {
        put_opened(old, new, &mut self.opened)?;
        put_closed(old, new, &mut self.closed)?;
        Ok(())
    }

    /// Appends it as it was put.
    pub(crate) fn hand_out(
        self,
        opens: &mut Items<Opened>,
        closes: &mut Items<Closed>,
    ) -> Result<(), AllocError>
        ensures opens { OnOk result (all_opened opens.new ≡ all_opened opens.old ++ self.opened) }
        ensures closes { OnOk result (all_closed closes.new ≡ all_closed closes.old ++ self.closed) }
    {
        let Told { opened, closed } = self;
        append(opens, opened)?;
        append(closes, closed)?;
        Ok(())
    }

    /// Appends it rule by rule, in the order of the rules' texts.
    pub(crate) fn hand_out_by_rule(
        self,
        opens: &mut Items<Opened>,
        closes: &mut Items<Closed>,
    ) -> Result<(), AllocError>
        ensures opens { OnOk result (all_opened opens.new ≡ all_opened opens.old ++ standings_in_order self.opened) }
        ensures closes { OnOk result (all_closed closes.new ≡ all_closed closes.old ++ spots_in_order self.closed) }
    {
        let Told { opened, closed } = self;
        let findings = rule_by_rule(opened)?;
        append(opens, findings)?;
        let spots = rule_by_rule(closed)?;
        append(closes, spots)?;
        Ok(())
    }
}

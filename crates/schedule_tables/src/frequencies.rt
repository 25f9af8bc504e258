//! What frequencies.txt says of a trip.

ghost use Rattle.std.specs.Prelude.{◌≡◌};

use crate::grouped::Group;
use schedule_rows::Frequency;
use std::alloc::{AllocError, Global};
use std::marker::Model;

/// The frequencies of a trip in the order of the file. Contracts see them as a list.
#[derive(Drop)]
pub struct Frequencies {
    items: Vec<Frequency>,
}

impl Model for Frequencies {
    ghost use Rattle.std.specs.Prelude.{List};
    ghost use Rattle.schedule_rows.specs.declared.frequency.Frequency.{Frequency};

    ghost Value = { List Frequency };

    ghost view = { λ frequencies. frequencies.items.items };
}

impl Frequencies {
    pub fn as_slice(&self) -> &[Frequency]
        ensures { result.now ≡ self.now }
    {
        self.items.as_slice()
    }
}

impl Group for Frequencies {
    ghost use Rattle.std.specs.Prelude.{[], ◌∷◌, ◌++◌, Some};

    type Item = Frequency;

    ghost grouping = { record { first = λ item. item ∷ []; more = λ items item. Some (items ++ item ∷ []) } };

    fn first(alloc: Global, item: Frequency) -> Result<Frequencies, AllocError> {
        let mut items = Vec::new(alloc);
        items.push(item)?;
        Ok(Frequencies { items })
    }

    fn put(&mut self, item: Frequency) -> Result<bool, AllocError> {
        self.items.push(item)?;
        Ok(true)
    }
}

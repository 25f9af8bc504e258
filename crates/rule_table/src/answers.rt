//! What answers asks.
ghost use Rattle.std.specs.Prelude.{◌≡◌, Option};
ghost use Rattle.std.specs.Option.{option_map};
ghost use Rattle.rule_table.specs.declared.ask.Ask.{Ask};
ghost use Rattle.rule_table.specs.declared.ask.Ask.TheVariants as Asks;
ghost use Rattle.rule_table.specs.Asked.{ask_value};
ghost use Rattle.feed_values.specs.declared.cell_value.CellValue.{CellValue};
ghost use Rattle.feed_values.specs.Cells.{cell_value};

use crate::ask::AskRef;
use feed_values::{CellRef, Path};

/// What answers asks, without memory: an entity with a timetable, headers, pairing rows, peaks.
pub trait Answers {
    ghost answers: { Self → Ask → Option CellValue };

    fn answer<'a>(&'a self, ask: AskRef<'_>) -> Option<CellRef<'a>>
        ensures { option_map cell_value result ≡ answers self.now (ask_value ask.entry) };

    /// The same for the cell at a path, which is what rules ask most.
    fn cell<'a>(&'a self, path: Path) -> Option<CellRef<'a>>
        ensures { option_map cell_value result ≡ answers self.now (Asks.Cell path) }
    {
        self.answer(AskRef::Cell(path))
    }
}

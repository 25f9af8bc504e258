//! What all rules ask at an entity.
ghost use Rattle.std.specs.Prelude.{◌≡◌, option_copied};
ghost use Rattle.std.specs.Option.{option_map};
ghost use Rattle.feed_values.specs.Views.{entity_value, feed_header_value};
ghost use Rattle.rule_history.specs.Answered.{tables_of};
ghost use Rattle.rule_table.specs.Asked.{ask_value};
ghost use Rattle.judging.specs.Answering.{answered_by};
ghost use Rattle.judging.specs.Whole.{rows_alone, whole_answer};

use feed_values::{CellRef, Path};
use history_rules::HeadAnswers;
use pairing_rules::PairAnswers;
use rule_clear::LocalAnswers;
use rule_table::{Answers, AskRef, PairView};

/// What answers an ask.
#[derive(Clone, Copy, Debug)]
enum Answering {
    /// The entity and the timetable.
    Local,
    /// The headers.
    Heads,
    /// The pairing rows.
    Pairs,
    /// Peaks, of which there are none.
    Peaks,
}

fn source(ask: AskRef<'_>) -> Answering
    ensures { result ≡ answered_by (ask_value ask.entry) }
{
    match ask {
        AskRef::HeadNow(_) | AskRef::HeadBefore(_) | AskRef::Moment | AskRef::EntitiesChanged =>
            Answering::Heads,
        AskRef::FirstVehicle(_, _)
        | AskRef::HasPair(_, _, _)
        | AskRef::AnyRow(_)
        | AskRef::HasTrip(_, _)
        | AskRef::HasVehicle(_, _)
        | AskRef::FirstId(_, _)
        | AskRef::FirstOccurrence(_, _) => Answering::Pairs,
        AskRef::Peak(_, _) => Answering::Peaks,
        _ => Answering::Local,
    }
}

/// An entity of a first snapshot, before which its vehicle has no peak, with all that its rules ask for: what each group of rules is answered by.
#[derive(Drop)]
pub(crate) struct EntityAnswers<'a, P: PairView> {
    pub local: LocalAnswers<'a>,
    pub heads: HeadAnswers<'a>,
    pub pairs: PairAnswers<'a, P>,
}

impl<P: PairView> Answers for EntityAnswers<'_, P> {
    ghost answers = { λ s. whole_answer (tables_of s.local.table.now) (rows_alone (P.rows s.pairs.view.now))
        (record { header = feed_header_value s.heads.now.now; previous = option_map feed_header_value (option_copied s.heads.before); changed = s.heads.changed; moment = s.heads.moment })
        s.local.key.now (entity_value s.local.entity.now) };

    fn answer<'a>(&'a self, ask: AskRef<'_>) -> Option<CellRef<'a>> {
        match source(ask) {
            Answering::Local => self.local.answer(ask),
            Answering::Heads => self.heads.answer(ask),
            Answering::Pairs => self.pairs.answer(ask),
            Answering::Peaks => Some(CellRef::Missing),
        }
    }

    fn cell<'a>(&'a self, path: Path) -> Option<CellRef<'a>> {
        self.local.cell(path)
    }
}
